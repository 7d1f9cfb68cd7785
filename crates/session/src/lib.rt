// A session at one machine, of the court's game: it begins over lent memory, takes one event at a
// call, draws what the peer shows as a picture, and writes its sound. Nothing is allocated, but by
// `sending` and `sounding`, which keep all packets and sounds. Rests on byte_numbers, court,
// court_game, game, network, packet, peer, picture, rollback and sound.

#![tactic(auto)]

pub mod calls;
pub mod event;
pub mod file;
pub mod refused;
pub mod row;
pub mod sending;
pub mod sounding;
pub mod statements;
pub mod status;
pub mod whole;

pub use event::{Answer, Happening};
pub use refused::Refused;
pub use status::Status;
