// Theorems about two seats, each on the contract of a function. What is promised of two peers is in
// the words of network.
ghost use Rattle.network.specs.Promise.{SameInputs, OneGame, NotFar, NoneRefused, PeersRun, BothSure, StaysSure, Guessed, SendsWritten};
ghost use Rattle.two_seats.specs.Two.{SameBytes, SameEvent, SameEvents, SameStanding};

/// With two seats a packet's bytes are those of its message, so formats do not change.
#[tactic(auto, using(crate::proofs::Peers::same_bytes))]
pub fn same_bytes()
    ensures { SameBytes }
{}

/// The same happens to a peer of two as to a peer at two seats, in one event and in a row of events,
/// whatever bytes come. Which fault is told of bytes that are refused is not said here.
#[tactic(auto, using(crate::proofs::Peers::same_event, crate::proofs::Peers::same_events))]
pub fn same_event()
    ensures one { SameEvent }
    ensures row { SameEvents }
{}

/// It is sure of as many frames, with the same states, shows the same, and sends the same. How many
/// frames an event plays is not compared.
pub fn same_standing<S>()
    ensures { SameStanding S }
{}

/// What `network::statements::same_inputs` says, from what holds of all seats; so the others below.
pub fn same_inputs()
    ensures { SameInputs }
{}

/// Both come to the same states, as far as frames are confirmed at both.
pub fn one_game<S>()
    ensures { OneGame S }
{}

/// No peer is further ahead of the other's inputs that it has than the window.
pub fn not_far()
    ensures { NotFar }
{}

/// Every packet that was written is taken by the peer that it is for.
pub fn none_refused()
    ensures { NoneRefused }
{}

/// With a window of 60 or less a packet of each that came is enough to confirm what was made when it
/// was written. That with 61 it is not, `network::statements::both_sure` says.
pub fn both_sure()
    ensures { BothSure }
{}

/// What holds of a peer after every row of events holds of both.
pub fn peers_run()
    ensures { PeersRun }
{}

/// Confirmed frames stay confirmed, with the same states, whatever bytes come.
pub fn stays_sure<S>()
    ensures { StaysSure S }
{}

/// Where the inputs that came are those that were predicted, and only there, the prediction does not
/// change; then nothing that is shown does.
pub fn guessed<S>()
    ensures { Guessed S }
{}

/// What a peer sends is one of the packets that a peer of a network may write.
pub fn sends_written()
    ensures { SendsWritten }
{}
