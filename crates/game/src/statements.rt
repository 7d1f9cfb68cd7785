// Theorems about the plain game of any game, each on the contract of a function.
ghost use Rattle.game.specs.Plain.{FromSaved};

// Playing on from a state on the way is playing from the beginning, for the states of every type.
#[tactic(auto, using(crate::proofs::Plays::from_saved))]
pub fn from_saved<S>()
    ensures { FromSaved S }
{}
