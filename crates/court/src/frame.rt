// One frame, from a state in the court to the next.
ghost use Rattle.std.specs.Prelude.{◌≡◌, ◌<◌};
ghost use Rattle.court.specs.Bounds.{InCourt};
ghost use Rattle.court.specs.Frame.{over, waited, ball_played, advanced};
ghost use Rattle.court.specs.Cues.{ball_cue, cue_of};

use crate::LAST_POINT;
use crate::ball::fly;
use crate::bounded::Court;
use crate::cue::Cue;
use crate::ends::Rally;
use crate::input::Input;
use crate::state::State;

/// What a frame comes to: the court after it, and what can be heard of it.
#[derive(Clone, Copy, PartialEq, Eq, Debug)]
pub struct Frame {
    pub court: Court,
    pub cue: Cue,
}

impl Court {
    fn is_over(self) -> bool
        ensures { result ≡ over self.state }
    {
        let score = self.state.score;
        score.left >= LAST_POINT || score.right >= LAST_POINT
    }

    // Steps 3 to 5: what the ball does.
    fn play_ball(self) -> Frame
        requires { (self.state.score.left < 9) × (self.state.score.right < 9) }
        ensures value { result.court.state ≡ ball_played self.state }
        ensures cue { result.cue ≡ ball_cue self.state }
    {
        let s = self.state;
        let flown = fly(s.ball, s.left, s.right);
        let rally = Rally {
            state: State {
                ball: flown.ball,
                ..s
            },
            cue: flown.cue,
        };
        let ended = rally.meet_ends();
        Frame {
            court: Court { state: ended.state },
            cue: ended.cue,
        }
    }

    /// The paddles go; then the wait falls by one, or where there is none the ball is played. A
    /// game that is over stays as it is.
    pub fn frame(self, left: Input, right: Input) -> Frame
        ensures value { result.court.state ≡ advanced self.state left.0 right.0 }
        ensures cue { result.cue ≡ cue_of self.state left.0 right.0 }
        ensures inside { InCourt result.court.state }
    {
        if self.is_over() {
            return Frame {
                court: self,
                cue: Cue::Nothing,
            };
        }
        let moved = self.move_paddles(left, right);
        if moved.state.wait != 0 {
            Frame {
                court: Court {
                    state: State {
                        wait: moved.state.wait - 1,
                        ..moved.state
                    },
                },
                cue: Cue::Nothing,
            }
        } else {
            moved.play_ball()
        }
    }
}
