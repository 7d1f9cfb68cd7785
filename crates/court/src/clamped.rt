// Any state brought into the court, as bytes from outside may say one that no game comes to.
ghost use Rattle.std.specs.Prelude.{◌≡◌};
ghost use Rattle.court.specs.Bounds.{InCourt, BallIn, PaddleIn, ball_clamped, paddle_clamped, clamped_in};

use crate::bounded::Court;
use crate::span::{BALL_X, BALL_Y, LEFT_HALF, PADDLE_Y, RIGHT_HALF, SPEEDS, Span};
use crate::state::{Ball, Paddle, Score, State};
use crate::{LAST_POINT, LONGEST_WAIT};

fn clamp_ball(b: Ball) -> Ball
    ensures value { result ≡ ball_clamped b }
    ensures inside { BallIn result }
{
    Ball {
        x: BALL_X.nearest(b.x),
        y: BALL_Y.nearest(b.y),
        dx: SPEEDS.nearest(b.dx),
        dy: SPEEDS.nearest(b.dy),
    }
}

fn clamp_paddle(p: Paddle, half: Span) -> Paddle
    ensures value { result ≡ paddle_clamped half.least half.most p }
    ensures inside { PaddleIn half.least half.most result }
{
    Paddle {
        x: half.nearest(p.x),
        y: PADDLE_Y.nearest(p.y),
    }
}

impl Court {
    // Each number brought into its range. A state in the court stays as it is.
    #[tactic(auto, using(crate::proofs::Ranges::clamped_same))]
    pub fn clamped(s: State) -> Court
        ensures value { result.state ≡ clamped_in s }
        ensures same { InCourt s → result.state ≡ s }
    {
        Court {
            state: State {
                ball: clamp_ball(s.ball),
                left: clamp_paddle(s.left, LEFT_HALF),
                right: clamp_paddle(s.right, RIGHT_HALF),
                score: Score {
                    left: s.score.left.min(LAST_POINT),
                    right: s.score.right.min(LAST_POINT),
                },
                wait: s.wait.min(LONGEST_WAIT),
            },
        }
    }
}
