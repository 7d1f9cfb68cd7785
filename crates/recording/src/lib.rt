// Recordings: the frames of a match that a peer is sure of, in bytes: writer, reader with refusals, and a player
// that shows any frame, begun at the last saved state before it.
// Rests on byte_numbers, court, court_game, game, packet, peer, picture and sound.

#![tactic(auto)]

pub mod fault;
pub mod held;
pub mod layout;
pub mod player;
mod read;
pub mod show;
pub mod sounds;
pub mod statements;
pub mod write;

pub use fault::Fault;
pub use held::Recording;
