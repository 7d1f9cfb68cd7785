// Theorems about rows of moves, each on the contract of a function.
ghost use Rattle.exchange.specs.Moves.{MovesAreTurns, MoveIsTurns};

// Moves lead to networks that turns make: what is promised of those holds after them.
#[tactic(auto, using(crate::proofs::Held::after_network, crate::proofs::Held::acted_turns))]
pub fn moves_are_turns()
    ensures row { MovesAreTurns }
    ensures one { MoveIsTurns }
{}
