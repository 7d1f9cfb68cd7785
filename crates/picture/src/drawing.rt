// A picture drawn into lent memory, each row into a part of it that is lent on.
ghost use Rattle.std.specs.Prelude.{◌≡◌, ◌++◌, length, drop, if◌then◌else◌, Ok, Err, Some, nat_le};
ghost use Rattle.picture.specs.Picture.{picture_of};
ghost use Rattle.picture.specs.Refusals.{refusal_number, refusal_place, refusal_text};

use crate::areas::areas_of;
use crate::row::draw_row;
use crate::{HEIGHT, LENGTH, WIDTH};
use court::Court;
use std::error::Error;
use std::fmt;

// Why nothing was drawn.
#[derive(Clone, Copy, PartialEq, Eq, Debug)]
pub enum Refused {
    TooShort,
}

impl Refused {
    pub fn number(self) -> u8
        ensures { result ≡ refusal_number self }
    {
        match self {
            Refused::TooShort => 5,
        }
    }

    pub fn place(self) -> usize
        ensures { result ≡ refusal_place self }
    {
        match self {
            Refused::TooShort => 3,
        }
    }
}

impl fmt::Display for Refused {
    ghost output = { λ refused. Some (refusal_text refused) };

    fn fmt<W: fmt::Write>(&self, f: &mut fmt::Formatter<W>) -> fmt::Result {
        write!(f, "refused {} at {}", self.number(), self.place())
    }
}

impl Error for Refused {}

// Draws over whatever stood in the first 19,200 bytes, and leaves those after them. A shorter slice is refused and stays as it was.
pub fn draw(court: Court, picture: &mut [u8]) -> Result<(), Refused>
    ensures value { result ≡ (if nat_le 19200 (length picture.old) then Ok tt else Err Refused.TooShort) }
    ensures picture { picture.new ≡ (if nat_le 19200 (length picture.old) then picture_of court.state ++ drop 19200 picture.old else picture.old) }
{
    if picture.len() < LENGTH {
        return Err(Refused::TooShort);
    }
    let areas = areas_of(court);
    // By index, each row a part that is lent on: no clause of chunks_exact_mut or as_chunks_mut says what the slice ends as.
    for j in 0..HEIGHT {
        let at = WIDTH * j;
        draw_row(&mut picture[at..at + WIDTH], j, court, areas);
    }
    Ok(())
}
