// A range, and the nearest number in it.
ghost use Rattle.std.specs.Prelude.{◌≡◌, ◌≤ℤ◌};
ghost use Rattle.court.specs.Bounds.{Within};
ghost use Rattle.court.specs.Frame.{between};

use crate::{BALL_HALF, HEIGHT, MIDDLE_X, PADDLE_HALF_X, PADDLE_HALF_Y, TOP_SPEED, WIDTH};

#[derive(Clone, Copy)]
pub(crate) struct Span {
    pub(crate) least: i32,
    pub(crate) most: i32,
    ghost ordered: { least ≤ℤ most },
}

impl Span {
    pub(crate) fn nearest(self, to: i32) -> i32
        ensures value { result ≡ between self.least self.most to }
        ensures inside { Within self.least self.most result }
    {
        to.clamp(self.least, self.most)
    }
}

// The halves of the court that the paddles keep to.
pub(crate) const LEFT_HALF: Span = Span {
    least: PADDLE_HALF_X,
    most: MIDDLE_X - PADDLE_HALF_X,
};

pub(crate) const RIGHT_HALF: Span = Span {
    least: MIDDLE_X + PADDLE_HALF_X,
    most: WIDTH - PADDLE_HALF_X,
};

// Where a paddle is between the walls, and where a ball is between them and between the ends.
pub(crate) const PADDLE_Y: Span = Span {
    least: PADDLE_HALF_Y,
    most: HEIGHT - PADDLE_HALF_Y,
};

pub(crate) const BALL_X: Span = Span {
    least: BALL_HALF,
    most: WIDTH - BALL_HALF,
};

pub(crate) const BALL_Y: Span = Span {
    least: BALL_HALF,
    most: HEIGHT - BALL_HALF,
};

// Velocities, in x as in y.
pub(crate) const SPEEDS: Span = Span {
    least: -TOP_SPEED,
    most: TOP_SPEED,
};
