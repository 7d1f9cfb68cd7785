// Why bytes are no recording.
ghost use Rattle.std.specs.Prelude.{◌≡◌, Some};
ghost use Rattle.recording.specs.Reading.{fault_place, fault_text};

use crate::layout::{COUNT_AT, WINDOW_AT};
use std::error::Error;
use std::fmt;

#[derive(Clone, Copy, PartialEq, Eq, Debug)]
pub enum Fault {
    // It does not begin with "REC": the first byte that differs.
    NoMark(usize),
    // It ends too early: its length.
    CutShort(usize),
    // Its window is not 1 to 60.
    Window,
    // It has more than 1,000,000 frames.
    TooMany,
    // A saved state is not what its frames give: the first byte that differs.
    WrongState(usize),
    // It goes on: the first byte too many.
    TooLong(usize),
}

impl Fault {
    // The same for every fault of a recording.
    pub fn number(self) -> u8
        ensures { result ≡ 6 }
    {
        6
    }

    // The first byte in fault.
    pub fn place(self) -> usize
        ensures { result ≡ fault_place self }
    {
        match self {
            Fault::NoMark(at) | Fault::CutShort(at) => at,
            Fault::WrongState(at) | Fault::TooLong(at) => at,
            Fault::Window => WINDOW_AT,
            Fault::TooMany => COUNT_AT,
        }
    }
}

impl fmt::Display for Fault {
    ghost output = { λ fault. Some (fault_text fault) };

    fn fmt<W: fmt::Write>(&self, f: &mut fmt::Formatter<W>) -> fmt::Result {
        write!(f, "refused {} at {}", self.number(), self.place())
    }
}

impl Error for Fault {}
