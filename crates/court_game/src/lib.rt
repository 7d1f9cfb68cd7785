// The court with its tone as a game that an engine can play, its states in 64 bytes, and the plain
// game of the court as programs call it, with contracts in the court's own words. Rests on
// byte_numbers, court, game and sound.
#![tactic(auto)]

pub mod plain;
pub mod saved;
pub mod snapshot;
pub mod sounding;
pub mod sounds;
pub mod statements;
