// Two peers and the packets between them: what holds at both, whatever becomes of the packets.
// Definitions and theorems only, about the same peers and packets that the contracts of the running code cite.
// Rests on game, packet and peer.

#![tactic(auto)]

pub mod statements;
