// Two seats as an instance of any number: the same bytes, the same happens to a peer, and what is
// promised of two peers follows from what is promised of all seats. Theorems only.
// Rests on game, packet, peer, network and seats.

#![tactic(auto)]

pub mod statements;
