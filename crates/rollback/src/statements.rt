// Theorems about the peer that goes back, for any game, each on the contract of a function.
ghost use Rattle.rollback.specs.Rows.{KeepsLog, SameShown, PlaysOn};

use game::saved::SavedGame;

// A peer has the log that the definitions give, whatever events came, right and wrong, and has saved the states that it asks for.
pub fn keeps_log<G: SavedGame>()
    ensures { KeepsLog G.saved }
{}

// What it shows is the plain game with the inputs of that log, those that have not come predicted.
pub fn same_shown<G: SavedGame>()
    ensures { SameShown G.saved }
{}

// Playing on from any state that it has saved leads to what it shows.
#[tactic(auto, using(crate::proofs::Rowed::plays_on))]
pub fn plays_on<G: SavedGame>()
    ensures { PlaysOn G.saved }
{}
