// The game's start.
ghost use Rattle.std.specs.Prelude.{◌≡◌};
ghost use Rattle.court.specs.Bounds.{InCourt};
ghost use Rattle.court.specs.Frame.{start};

use crate::bounded::Court;
use crate::state::{Ball, Paddle, Score, State};
use crate::{LONGEST_WAIT, MIDDLE_X, MIDDLE_Y, SERVE_X, SERVE_Y};

impl Court {
    // Each Court carries what `inside` says, here and at `frame`; it is said too, so that a caller reads it without the type.
    #[tactic(auto, unfolding(crate::specs::Frame::start))]
    pub fn new() -> Court
        ensures value { result.state ≡ start }
        ensures inside { InCourt result.state }
    {
        Court {
            state: State {
                ball: Ball {
                    x: MIDDLE_X,
                    y: MIDDLE_Y,
                    dx: SERVE_X,
                    dy: SERVE_Y,
                },
                left: Paddle {
                    x: 2048,
                    y: MIDDLE_Y,
                },
                right: Paddle {
                    x: 38912,
                    y: MIDDLE_Y,
                },
                score: Score { left: 0, right: 0 },
                wait: LONGEST_WAIT,
            },
        }
    }
}
