// Pictures: a state of the court as 120 rows of 160 bytes, drawn into lent memory row by row,
// every byte proved to be the one that the rules give the dot.
// Rests on court.
#![tactic(auto)]

mod areas;
pub mod drawing;
mod row;
mod score;
pub mod statements;
pub mod text;

pub use drawing::{Refused, draw};
pub use text::text_of;

// Dots in a row, and rows.
pub const WIDTH: usize = 160;

pub const HEIGHT: usize = 120;

// Bytes of a picture.
pub const LENGTH: usize = WIDTH * HEIGHT;

// Bytes of dots. One that is none of these is 0.
pub const LINE: u8 = 1;

pub const BALL: u8 = 2;

pub const PADDLE: u8 = 3;

pub const DIGIT: u8 = 4;
