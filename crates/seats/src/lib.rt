// Peers at any number of seats, and the packets between them: definitions and theorems only.
// The running code is still that for two seats, in game, packet, peer and the crates above them.
// Rests on game, packet, peer and network.

#![tactic(auto)]

pub mod statements;
