// Theorems about peers at any number of seats, each on the contract of a function.
ghost use Rattle.seats.specs.Packets.{PacketRead, ReadWritten};
ghost use Rattle.seats.specs.Plain.{FromSaved};
ghost use Rattle.seats.specs.Promise.{SameInputs, OneGame, NotFar, NoneRefused, PeersRun, AllSure, SixtyIsMost, StaysSure, Guessed, OwnBack, SendsWritten};

/// Playing on from a state on the way is playing from the beginning, for the states of every type.
/// That a saved state is read back as it was is not said here.
#[tactic(auto, using(crate::proofs::Plays::from_saved))]
pub fn from_saved<S>()
    ensures { FromSaved S }
{}

/// A packet that is written is read as it was written, at every seat that it can come to. With two
/// seats its bytes do not say whose it is, so that nothing is said of one that comes back to its
/// sender.
#[tactic(auto, using(crate::proofs::Packets::packet_read))]
pub fn packet_read()
    ensures { PacketRead }
{}

/// What is read as a packet is the bytes of that packet, and one that is taken there. Which fault is
/// told of bytes that are refused is not said here.
pub fn packet_written()
    ensures { ReadWritten }
{}

/// What a peer has of another's inputs is the beginning of those that the other made, and of the
/// frames that are confirmed at two peers both have the same inputs of every seat. It does not say
/// that any input comes.
pub fn same_inputs()
    ensures { SameInputs }
{}

/// All come to the same states, as far as frames are confirmed, for the states of every type. Of
/// frames that are not confirmed at both it says nothing.
#[tactic(auto, using(crate::proofs::Networks::one_game))]
pub fn one_game<S>()
    ensures { OneGame S }
{}

/// No peer has made more inputs than it has of the slowest other and the window together. How far it
/// is ahead of what the other made since, no peer can know, and nothing is said.
#[tactic(auto, using(crate::proofs::Turns::not_far))]
pub fn not_far()
    ensures { NotFar }
{}

/// Every packet that was written is taken by every peer that it can come to, also one that comes back
/// to its sender. Bytes that were changed on the way are not spoken of.
pub fn none_refused()
    ensures { NoneRefused }
{}

/// What holds of a peer after every row of events holds of every peer of a network. Which events
/// they were is not said.
#[tactic(auto, using(crate::proofs::Turns::peers_run))]
pub fn peers_run()
    ensures { PeersRun }
{}

/// With a window of 60 or less a packet of each that came to every other is enough to confirm the
/// frames that had been played when each was written. A packet must have come to every other, not to
/// one that passes on what it has: peers pass nothing on by themselves. With a window of 61 that is
/// false, at two seats; that it is false at every larger number is not said.
#[tactic(auto, using(crate::proofs::Arrivals::all_sure, crate::proofs::Sixty::sixty_is_most))]
pub fn all_sure()
    ensures within { AllSure }
    ensures beyond { SixtyIsMost }
{}

/// Confirmed frames stay confirmed, with the same inputs and states, whatever bytes come. That any
/// more are ever confirmed is not said.
pub fn stays_sure<S>()
    ensures { StaysSure S }
{}

/// Where the inputs that came are those that were predicted, and only there, no prediction changes;
/// then nothing that is shown does. How many frames are played again is not said here.
pub fn guessed<S>()
    ensures { Guessed S }
{}

/// With more than two seats a packet of a peer's own seat changes nothing, whether it is read or
/// refused. With two seats such a packet cannot be noticed.
#[tactic(auto, using(crate::proofs::OnePeer::own_back))]
pub fn own_back()
    ensures { OwnBack }
{}

/// What a peer sends is one of the packets that a peer of a network may write. That it comes to
/// anybody is not said.
#[tactic(auto, using(crate::proofs::OnePeer::sends_written))]
pub fn sends_written()
    ensures { SendsWritten }
{}
