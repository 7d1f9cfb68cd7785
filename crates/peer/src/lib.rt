// A peer: what one machine knows of a game that it plays with another, over any game.
// Its inputs lie in lent memory: the log of its own inputs, and of the other's as far as they came.
// Rests on game and packet.
#![tactic(auto)]

pub mod log;
pub mod memory;
pub mod numbers;
pub mod outgoing;
pub mod refusal;

pub use numbers::Peer;
pub use refusal::Refusal;
