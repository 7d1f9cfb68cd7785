// Tests of the peer that goes back: the court and a second small game over lent memory,
// by examples, and by random events beside a peer that plays from the start each time.
// Rests on byte_numbers, court, court_game, game, packet, peer and rollback.

#![tactic(auto)]

#[cfg(test)]
mod beside;
#[cfg(test)]
mod examples;
#[cfg(test)]
mod machine;
#[cfg(test)]
mod naive;
#[cfg(test)]
mod random;
#[cfg(test)]
mod snapshots;
pub mod trail;
