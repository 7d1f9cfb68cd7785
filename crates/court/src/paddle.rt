// Step 1 of a frame: each paddle goes by its seat's input.
ghost use Rattle.std.specs.Prelude.{◌≡◌, pos, neg_ℤ};
ghost use Rattle.court.specs.Bounds.{Within, OnCourt, PaddleIn};
ghost use Rattle.court.specs.Frame.{bit, stepped, paddle_moved, paddles_moved};
ghost use Rattle.court.specs.Keys.{mask_of};

use crate::Court;
use crate::input::{Input, Key};
use crate::span::{LEFT_HALF, PADDLE_Y, RIGHT_HALF, Span};
use crate::state::{Paddle, State};

const SPEED: i32 = 512;

// How far a paddle goes by a pair of keys. Both are as good as none.
fn step(input: Input, back: Key, forth: Key) -> i32
    ensures value { result ≡ stepped (bit (mask_of back) input.0) (bit (mask_of forth) input.0) }
    ensures small { Within (neg_ℤ (pos 512)) (pos 512) result }
{
    // By numbers: what compares the keys is compiled to much slower code.
    SPEED * (i32::from(input.holds(forth)) - i32::from(input.holds(back)))
}

fn move_paddle(p: Paddle, input: Input, half: Span) -> Paddle
    requires { OnCourt p }
    ensures value { result ≡ paddle_moved half.least half.most p input.0 }
    ensures inside { PaddleIn half.least half.most result }
{
    Paddle {
        x: half.nearest(p.x + step(input, Key::Left, Key::Right)),
        y: PADDLE_Y.nearest(p.y + step(input, Key::Up, Key::Down)),
    }
}

impl Court {
    pub(crate) fn move_paddles(self, left: Input, right: Input) -> Court
        ensures { result.state ≡ paddles_moved self.state left.0 right.0 }
    {
        let s = self.state;
        Court {
            state: State {
                left: move_paddle(s.left, left, LEFT_HALF),
                right: move_paddle(s.right, right, RIGHT_HALF),
                ..s
            },
        }
    }
}
