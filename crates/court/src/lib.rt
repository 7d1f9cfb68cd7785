// The court: a ball, two paddles and two goals, in whole numbers. One frame from a state and both seats' inputs, by the rules,
// each step proved equal to its definition in specs/; and the proof that ball and paddles cannot leave the court.
// Rests on no other crate.
#![tactic(auto)]

mod ball;
pub mod bounded;
mod clamped;
pub mod cue;
mod ends;
pub mod frame;
pub mod game;
pub mod input;
mod paddle;
mod span;
pub mod state;
pub mod statements;

pub use bounded::Court;
pub use cue::Cue;
pub use input::Input;
pub use state::State;

// The court's sides, and half the sides of the ball and of a paddle, in 256ths of a dot.
pub const WIDTH: i32 = 40960;

pub const HEIGHT: i32 = 30720;

pub const BALL_HALF: i32 = 512;

pub const PADDLE_HALF_X: i32 = 512;

pub const PADDLE_HALF_Y: i32 = 2048;

// The middle of the court, and the velocity of a ball that is served from it.
pub(crate) const MIDDLE_X: i32 = WIDTH / 2;

pub(crate) const MIDDLE_Y: i32 = HEIGHT / 2;

pub(crate) const SERVE_X: i32 = 512;

pub(crate) const SERVE_Y: i32 = 256;

// The most that a velocity is, in x as in y.
pub(crate) const TOP_SPEED: i32 = 6144;

// The points that end a game.
pub(crate) const LAST_POINT: u8 = 9;

// The frames that a served ball waits. None waits longer.
pub(crate) const LONGEST_WAIT: u8 = 60;
