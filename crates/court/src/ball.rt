// Steps 3 and 4 of a frame: the ball moves by its velocity and turns round at the walls, and the
// paddles that meet it send it back.
ghost use Rattle.std.specs.Prelude.{◌≡◌, ◌+◌, ◌^◌, ◌<◌, ◌≤◌, pos, neg_ℤ};
ghost use Rattle.court.specs.Bounds.{Within, Flying, BallIn, OnCourt, InHalf};
ghost use Rattle.court.specs.declared.state.Side.TheVariants.{Left, Right};
ghost use Rattle.court.specs.Frame.{top_speed, longest_step, most_steps, step_count, step_length, step_moved, along, after_steps};
ghost use Rattle.court.specs.Frame.{sixteenth_of, inward, quickened, bent_by, meets, ball_moved, struck, sent_back, both_at_once};
ghost use Rattle.court.specs.Cues.{cue_at_wall, cue_at_paddles, cue_at_step, cue_after_steps};

use crate::cue::Cue;
use crate::span::{BALL_Y, SPEEDS};
use crate::state::{Ball, Paddle, Side};
use crate::{BALL_HALF, PADDLE_HALF_X, PADDLE_HALF_Y, TOP_SPEED};

const GAIN: i32 = 32;

// How far a ball goes in one step, in x and in y, at most: less than a paddle's reach, so that it
// passes through none.
const LONGEST_STEP: u32 = 768;

// As many steps as the fastest ball takes in a frame.
const MOST_STEPS: u32 = TOP_SPEED as u32 / LONGEST_STEP;

// How near the middles of a ball and a paddle are where they touch. In a constant stands no call,
// so a cast.
const REACH_X: u32 = (PADDLE_HALF_X + BALL_HALF) as u32;

const REACH_Y: u32 = (PADDLE_HALF_Y + BALL_HALF) as u32;

pub(crate) fn into_court(from: Side, by: i32) -> i32
    requires { Within (pos 0) top_speed by }
    ensures value { result ≡ inward from by }
    ensures small { Within (neg_ℤ top_speed) top_speed result }
{
    match from {
        Side::Left => by,
        Side::Right => -by,
    }
}

// So far in the direction of a velocity.
#[tactic(auto, unfolding(crate::specs::Frame::along))]
fn directed(velocity: i32, length: u32) -> i32
    requires { length ≤ longest_step }
    ensures value { result ≡ along velocity length }
    ensures short { Within (neg_ℤ (pos longest_step)) (pos longest_step) result }
{
    let length = length as i32;
    if velocity < 0 {
        -length
    } else if velocity > 0 {
        length
    } else {
        0
    }
}

// How many steps a ball's frame has.
fn count_steps(first: Ball) -> u32
    ensures { result ≡ step_count first }
{
    first
        .dx
        .unsigned_abs()
        .max(first.dy.unsigned_abs())
        .div_ceil(LONGEST_STEP)
        .max(1)
}

// The length of step i of so many that are `total` long together.
#[tactic(auto, unfolding(crate::specs::Frame::step_length))]
fn length_of_step(total: u32, count: u32, i: u32) -> u32
    requires some { 0 < count }
    requires fits { total ≤ 2 ^ 31 }
    ensures { result ≡ step_length total count i }
{
    total / count + u32::from(i < total % count)
}

// A ball in a frame, and what was heard of the frame so far.
#[derive(Clone, Copy)]
pub(crate) struct HeardBall {
    pub(crate) ball: Ball,
    pub(crate) cue: Cue,
}

// Step 3: the ball goes so far in x and in y, and turns round at the walls.
#[tactic(auto, unfolding(crate::specs::Cues::cue_at_wall))]
fn move_ball(from: HeardBall, by_x: i32, by_y: i32) -> HeardBall
    requires ball { Flying most_steps from.ball }
    requires x { Within (neg_ℤ (pos longest_step)) (pos longest_step) by_x }
    requires y { Within (neg_ℤ (pos longest_step)) (pos longest_step) by_y }
    ensures ball { result.ball ≡ ball_moved by_x by_y from.ball }
    ensures cue { result.cue ≡ cue_at_wall by_y from.ball from.cue }
{
    let b = from.ball;
    let y = b.y + by_y;
    let moved = Ball {
        x: b.x + by_x,
        y,
        ..b
    };
    if y < BALL_Y.least {
        HeardBall {
            ball: Ball {
                y: BALL_Y.least,
                dy: b.dy.abs(),
                ..moved
            },
            cue: Cue::Wall,
        }
    } else if y > BALL_Y.most {
        HeardBall {
            ball: Ball {
                y: BALL_Y.most,
                dy: -b.dy.abs(),
                ..moved
            },
            cue: Cue::Wall,
        }
    } else {
        HeardBall {
            ball: moved,
            cue: from.cue,
        }
    }
}

fn sixteenth(d: i32) -> i32
    ensures value { result ≡ sixteenth_of d }
    ensures small { Within (neg_ℤ (pos 134217728)) (pos 134217728) result }
{
    d / 16
}

fn quicken(dx: i32) -> i32
    requires { Within (neg_ℤ top_speed) top_speed dx }
    ensures value { result ≡ quickened dx }
    ensures small { Within (pos 0) top_speed result }
{
    (dx.abs() + GAIN).min(TOP_SPEED)
}

fn bend(dy: i32, d: i32) -> i32
    requires { Within (neg_ℤ top_speed) top_speed dy }
    ensures value { result ≡ bent_by dy d }
    ensures small { Within (neg_ℤ top_speed) top_speed result }
{
    SPEEDS.nearest(dy + sixteenth(d))
}

fn touches(b: Ball, p: Paddle) -> bool
    ensures { result ≡ meets b p }
{
    b.x.abs_diff(p.x) < REACH_X && b.y.abs_diff(p.y) < REACH_Y
}

// The ball that the paddle on one side sends back.
fn strike(side: Side, p: Paddle, b: Ball) -> Ball
    requires paddle { OnCourt p }
    requires ball { Flying most_steps b }
    ensures { result ≡ struck side p b }
{
    Ball {
        x: p.x + into_court(side, PADDLE_HALF_X + BALL_HALF),
        y: b.y,
        dx: into_court(side, quicken(b.dx)),
        dy: bend(b.dy, b.y - p.y),
    }
}

// The ball between two paddles that both meet it.
fn send_back(before: Ball, moved: Ball) -> Ball
    requires { Flying most_steps moved }
    ensures { result ≡ sent_back before moved }
{
    Ball {
        dx: -moved.dx,
        dy: moved.dy,
        ..before
    }
}

// Step 4. Both paddles look at the ball as step 3 left it; `before` is the ball before the step. In
// line, as `step` is.
#[tactic(auto, unfolding(crate::specs::Frame::both_at_once, crate::specs::Cues::cue_at_paddles))]
#[inline(always)]
fn meet_paddles(left: Paddle, right: Paddle, before: Ball, moved: HeardBall) -> HeardBall
    requires left_on_court { OnCourt left }
    requires right_on_court { OnCourt right }
    requires flies { Flying most_steps moved.ball }
    ensures ball { result.ball ≡ both_at_once left right before moved.ball }
    ensures cue { result.cue ≡ cue_at_paddles left right moved.ball moved.cue }
{
    if touches(moved.ball, left) {
        if touches(moved.ball, right) {
            HeardBall {
                ball: send_back(before, moved.ball),
                cue: Cue::Paddle,
            }
        } else {
            HeardBall {
                ball: strike(Side::Left, left, moved.ball),
                cue: Cue::Paddle,
            }
        }
    } else if touches(moved.ball, right) {
        HeardBall {
            ball: strike(Side::Right, right, moved.ball),
            cue: Cue::Paddle,
        }
    } else {
        moved
    }
}

// A ball after some steps of a frame. It may be past an end, by as much as these go.
#[derive(Clone, Copy)]
pub(crate) struct FlyingBall {
    pub(crate) heard: HeardBall,
    steps: u32,
    ghost flies: { Flying steps heard.ball },
    ghost few: { steps ≤ most_steps },
}

impl FlyingBall {
    // One step more, with the walls and the paddles. In line, since a call would pass ball and cue
    // through memory.
    #[inline(always)]
    fn step(self, by_x: i32, by_y: i32, left: Paddle, right: Paddle) -> FlyingBall
        requires few { self.steps < most_steps }
        requires x { Within (neg_ℤ (pos longest_step)) (pos longest_step) by_x }
        requires y { Within (neg_ℤ (pos longest_step)) (pos longest_step) by_y }
        requires left_half { InHalf Left left }
        requires right_half { InHalf Right right }
        ensures ball { result.heard.ball
            ≡ both_at_once left right self.heard.ball (ball_moved by_x by_y self.heard.ball) }
        ensures cue { result.heard.cue
            ≡ cue_at_paddles left right (ball_moved by_x by_y self.heard.ball)
            (cue_at_wall by_y self.heard.ball self.heard.cue) }
        ensures steps { result.steps ≡ self.steps + 1 }
    {
        let moved = move_ball(self.heard, by_x, by_y);
        FlyingBall {
            heard: meet_paddles(left, right, self.heard.ball, moved),
            steps: self.steps + 1,
        }
    }

    // Step i, counted from 0, of a frame of `count` steps, at whose beginning the ball was `first`.
    fn step_of(self, first: Ball, count: u32, i: u32, left: Paddle, right: Paddle) -> FlyingBall
        requires few { self.steps < most_steps }
        requires counted { count ≡ step_count first }
        requires left_half { InHalf Left left }
        requires right_half { InHalf Right right }
        ensures ball { result.heard.ball
            ≡ both_at_once left right self.heard.ball (step_moved first i self.heard.ball) }
        ensures cue { result.heard.cue
            ≡ cue_at_step left right first i self.heard.ball self.heard.cue }
        ensures steps { result.steps ≡ self.steps + 1 }
    {
        let by_x = length_of_step(first.dx.unsigned_abs(), count, i);
        let by_y = length_of_step(first.dy.unsigned_abs(), count, i);
        let ball = self.heard.ball;
        self.step(
            directed(ball.dx, by_x),
            directed(ball.dy, by_y),
            left,
            right,
        )
    }
}

// The ball after all steps of a frame, and what was heard of them.
pub(crate) fn fly(first: Ball, left: Paddle, right: Paddle) -> HeardBall
    requires ball { BallIn first }
    requires left_half { InHalf Left left }
    requires right_half { InHalf Right right }
    ensures ball { result.ball ≡ after_steps both_at_once left right first (step_count first) }
    ensures cue { result.cue ≡ cue_after_steps left right first (step_count first) }
{
    let mut flying = FlyingBall {
        heard: HeardBall {
            ball: first,
            cue: Cue::Nothing,
        },
        steps: 0,
    };
    let count = count_steps(first);
    // One step is as long as the velocity: no division.
    if count == 1 {
        return flying.step(first.dx, first.dy, left, right).heard;
    }
    for i in 0..count {
        flying = flying.step_of(first, count, i, left, right);
    }
    flying.heard
}
