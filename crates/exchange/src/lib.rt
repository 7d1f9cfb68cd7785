// Two sessions of the court's game, the packets that they write to each other, and a radio that hands over which it likes,
// when it likes: a row of moves, as `radio` and tests make it, played over the calls of a session.
// Rests on byte_numbers, court, court_game, game, network, packet, peer, recording, rollback and session.

#![tactic(auto)]

pub mod machine;
pub mod moves;
pub mod run;
pub mod statements;
pub mod tally;
