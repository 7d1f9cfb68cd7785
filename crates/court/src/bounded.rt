// A state that is in the court: ball and paddles, velocities, score and wait are each in their range.
ghost use Rattle.court.specs.Bounds.{InCourt};

use crate::state::State;

#[derive(Clone, Copy, PartialEq, Eq, Debug)]
pub struct Court {
    pub state: State,
    ghost inside: { InCourt state },
}
