// Step 5 of a frame: the ball past an end of the court.
ghost use Rattle.std.specs.Prelude.{◌≡◌, ◌<◌, ◌≤◌, if◌then◌else◌};
ghost use Rattle.court.specs.Bounds.{InPlay};
ghost use Rattle.court.specs.Frame.{in_goal, awarded, serve_ball, scored, end_at, turned, end_met, ends_met};
ghost use Rattle.court.specs.Cues.{cue_at_ends};
ghost use Rattle.court.specs.declared.cue.Cue.TheVariants.{Point, Wall};

use crate::ball::into_court;
use crate::bounded::Court;
use crate::cue::Cue;
use crate::span::BALL_X;
use crate::state::{Ball, Score, Side, State};
use crate::{LONGEST_WAIT, MIDDLE_X, MIDDLE_Y, SERVE_X, SERVE_Y};

const GOAL_TOP: i32 = 10240;

const GOAL_BOTTOM: i32 = 20480;

fn is_goal(y: i32) -> bool
    ensures { result ≡ in_goal y }
{
    (GOAL_TOP..=GOAL_BOTTOM).contains(&y)
}

// A point for the seat at the other end.
fn award(out: Side, score: Score) -> Score
    requires { (score.left < 9) × (score.right < 9) }
    ensures { result ≡ awarded out score }
{
    match out {
        Side::Left => Score {
            right: score.right + 1,
            ..score
        },
        Side::Right => Score {
            left: score.left + 1,
            ..score
        },
    }
}

// The ball as it is served after a point: toward the seat that won it, down where the points
// together are even, else up.
fn serve(out: Side, score: Score) -> Ball
    requires { (score.left ≤ 9) × (score.right ≤ 9) }
    ensures { result ≡ serve_ball out score }
{
    let even = (score.left + score.right) % 2 == 0;
    Ball {
        x: MIDDLE_X,
        y: MIDDLE_Y,
        dx: into_court(out, SERVE_X),
        dy: if even { SERVE_Y } else { -SERVE_Y },
    }
}

// Where the ball's middle is as it touches an end.
fn end_x(end: Side) -> i32
    ensures { result ≡ end_at end }
{
    match end {
        Side::Left => BALL_X.least,
        Side::Right => BALL_X.most,
    }
}

// A state at the end of a frame, and what was heard of the frame.
#[derive(Clone, Copy)]
pub(crate) struct HeardState {
    pub(crate) state: State,
    pub(crate) cue: Cue,
}

// A state in the middle of a frame, of a game that is not over.
#[derive(Clone, Copy)]
pub(crate) struct Rally {
    pub(crate) state: State,
    // What was heard of the frame so far.
    pub(crate) cue: Cue,
    ghost in_play: { InPlay state },
}

impl Rally {
    fn concede(self, out: Side) -> State
        ensures { result ≡ scored out self.state }
    {
        let score = award(out, self.state.score);
        State {
            ball: serve(out, score),
            score,
            wait: LONGEST_WAIT,
            ..self.state
        }
    }

    fn turn(self, end: Side) -> Ball
        ensures { result ≡ turned end self.state.ball }
    {
        let b = self.state.ball;
        Ball {
            x: end_x(end),
            dx: into_court(end, b.dx.abs()),
            ..b
        }
    }

    #[tactic(auto, unfolding(crate::specs::Frame::end_met))]
    fn meet_end(self, end: Side) -> HeardState
        ensures state { result.state ≡ end_met end self.state }
        ensures cue { result.cue ≡ (if in_goal self.state.ball.y then Point else Wall) }
    {
        if is_goal(self.state.ball.y) {
            HeardState {
                state: self.concede(end),
                cue: Cue::Point,
            }
        } else {
            HeardState {
                state: State {
                    ball: self.turn(end),
                    ..self.state
                },
                cue: Cue::Wall,
            }
        }
    }

    #[tactic(auto, unfolding(crate::specs::Frame::ends_met, crate::specs::Cues::cue_at_ends))]
    pub(crate) fn meet_ends(self) -> HeardState
        ensures state { result.state ≡ ends_met self.state }
        ensures cue { result.cue ≡ cue_at_ends self.state.ball self.cue }
    {
        let x = self.state.ball.x;
        if x < BALL_X.least {
            self.meet_end(Side::Left)
        } else if x > BALL_X.most {
            self.meet_end(Side::Right)
        } else {
            HeardState {
                state: self.state,
                cue: self.cue,
            }
        }
    }
}
