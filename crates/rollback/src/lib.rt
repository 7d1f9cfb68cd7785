// The peer that saves a state after each frame, goes back to one where an input was predicted wrong, and plays on from there.
// Over lent memory and for any game; what it shows is proved to be the plain game with the inputs that it has and predicts.
// Rests on game, packet and peer.

#![tactic(auto)]

pub mod events;
mod frames;
mod incoming;
mod memory;
pub mod outcome;
mod replay;
pub mod shown;
mod slots;
pub mod statements;

pub use outcome::Outcome;
