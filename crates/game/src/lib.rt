// What an engine asks of a game for two seats, as a trait with the game's model as a ghost member,
// and the plain game of any such game: all inputs of both seats, from the start or on from a state.
// Rests on no other crate.
#![tactic(auto)]

pub mod plain;
pub mod rules;
pub mod saved;
pub mod seat;
pub mod statements;
