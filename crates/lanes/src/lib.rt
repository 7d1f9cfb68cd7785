// A peer at any number of seats over lent memory: a lane of inputs for each seat, the own first and
// then the others in the seats' order. What a lane and a peer keep is in their types.
// Rests on game, packet, peer and seats.
#![tactic(auto)]

pub mod lane;
pub mod least;
pub mod numbers;
pub mod predicted;

pub use lane::Lane;
pub use numbers::Peer;
