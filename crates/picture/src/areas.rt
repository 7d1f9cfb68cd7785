// Which dots the ball and the paddles cover, as runs of columns and rows; worked out once for a picture.
ghost use Rattle.std.specs.Prelude.{◌≡◌, pos, ◌-ℤ◌, ◌≤ℤ◌};
ghost use Rattle.picture.specs.Areas.{in_run, Covers, Covered};

use court::{BALL_HALF, Court, HEIGHT, PADDLE_HALF_X, PADDLE_HALF_Y, WIDTH};

// From a place up to, but without, another. It is Copy, as std's Range is not.
#[derive(Clone, Copy)]
pub struct Run {
    pub from: usize,
    pub to: usize,
}

#[derive(Clone, Copy)]
pub struct Area {
    pub columns: Run,
    pub rows: Run,
}

#[derive(Clone, Copy)]
pub struct Areas {
    pub ball: Area,
    pub left: Area,
    pub right: Area,
}

impl Run {
    #[tactic(auto, unfolding(crate::specs::Areas::in_run))]
    pub(crate) fn has(self, place: usize) -> bool
        ensures { result ≡ in_run self place }
    {
        (self.from..self.to).contains(&place)
    }
}

// The dots whose middles are nearer to a position than half a side.
fn run_of(position: i32, half: i32, side: i32) -> Run
    requires { (pos 128 ≤ℤ half) × ((half ≤ℤ position) × ((position ≤ℤ (side -ℤ half)) × (side ≤ℤ pos 40960))) }
    ensures { Covers position half result }
{
    // Neither is negative in the court, so that the casts keep them; try_from would have an error that cannot come.
    let from = (position - half + 128) as usize / 256;
    let to = (position + half + 127) as usize / 256;
    Run { from, to }
}

pub(crate) fn areas_of(court: Court) -> Areas
    ensures { Covered court.state result }
{
    let s = court.state;
    Areas {
        ball: Area {
            columns: run_of(s.ball.x, BALL_HALF, WIDTH),
            rows: run_of(s.ball.y, BALL_HALF, HEIGHT),
        },
        left: Area {
            columns: run_of(s.left.x, PADDLE_HALF_X, WIDTH),
            rows: run_of(s.left.y, PADDLE_HALF_Y, HEIGHT),
        },
        right: Area {
            columns: run_of(s.right.x, PADDLE_HALF_X, WIDTH),
            rows: run_of(s.right.y, PADDLE_HALF_Y, HEIGHT),
        },
    }
}
