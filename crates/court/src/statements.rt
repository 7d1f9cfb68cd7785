// Theorems about a frame, each on the contract of a function.
ghost use Rattle.court.specs.FormerRule.{SameUnlessBothMet, BothCasesComeOut};

/// What it means that both paddles look at the same ball: where the former rule, by which the left
/// paddle struck the ball before the right one looked, gave another frame, and one state for each
/// of the two cases.
pub fn both_paddles_look_at_once()
    ensures same_unless { SameUnlessBothMet }
    ensures cases { BothCasesComeOut }
{}
