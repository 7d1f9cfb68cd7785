// Theorems about two peers and the packets between them, each on the contract of a function.
ghost use Rattle.network.specs.Promise.{SameInputs, OneGame, NotFar, NoneRefused, PeersRun, BothSure, SixtyIsMost, StaysSure, Guessed, SendsWritten};

// What a peer has of the other's inputs is the beginning of those that the other made, and both have the same inputs of the
// frames that are confirmed at both.
pub fn same_inputs()
    ensures { SameInputs }
{}

// Both come to the same states, as far as frames are confirmed at both, for the states of every type.
#[tactic(auto, using(crate::proofs::Networks::one_game))]
pub fn one_game<S>()
    ensures { OneGame S }
{}

// No peer is further ahead of the other's inputs that it has than the window.
#[tactic(auto, using(crate::proofs::Rows::not_far))]
pub fn not_far()
    ensures { NotFar }
{}

// Every packet that was written is taken by the peer that it is for.
#[tactic(auto, using(crate::proofs::Networks::none_refused))]
pub fn none_refused()
    ensures { NoneRefused }
{}

// What holds of a peer after every row of events holds of both peers of a network.
#[tactic(auto, using(crate::proofs::Rows::peers_run))]
pub fn peers_run()
    ensures { PeersRun }
{}

// With a window of 60 or less a packet of each that came is enough to confirm what was made when it was written, and with 61 it
// is not.
#[tactic(auto, using(crate::proofs::Arrivals::both_sure, crate::proofs::Sixty::sixty_is_most))]
pub fn both_sure()
    ensures within { BothSure }
    ensures beyond { SixtyIsMost }
{}

// Confirmed frames stay confirmed, with the same states, whatever bytes come.
pub fn stays_sure<S>()
    ensures { StaysSure S }
{}

// Where the inputs that came are those that were predicted, nothing that is predicted or shown changes.
pub fn guessed<S>()
    ensures { Guessed S }
{}

// What a peer sends is one of the packets that a peer of a network may write.
#[tactic(auto, using(crate::proofs::OnePeer::sends_written))]
pub fn sends_written()
    ensures { SendsWritten }
{}
