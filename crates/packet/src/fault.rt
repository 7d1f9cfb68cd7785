// Why bytes are no packet, or a packet is not written.
ghost use Rattle.std.specs.Prelude.{◌≡◌};
ghost use Rattle.packet.specs.Wire.{fault_number, fault_place};

use crate::{ACK_AT, COUNT_AT, FIRST_AT};

#[derive(Clone, Copy, PartialEq, Eq, Debug)]
pub enum Fault {
    // It does not begin with "H".
    NoMark,
    // It ends too early: its length.
    CutShort(usize),
    // It goes on: the first byte too many.
    TooLong(usize),
    // It has more than 120 inputs.
    TooMany,
    // An input is above 15: that byte.
    BadInput(usize),
    // Its first frame and the number of its inputs add up to more than 1,000,000.
    PastEnd,
    // It acknowledges inputs that this peer has not made.
    Unmade,
}

impl Fault {
    // 1 for the packet's form, 2 for an input, 3 for what does not go with the game.
    pub fn number(self) -> u8
        ensures { result ≡ fault_number self }
    {
        match self {
            Fault::NoMark | Fault::CutShort(_) | Fault::TooLong(_) | Fault::TooMany => 1,
            Fault::BadInput(_) => 2,
            Fault::PastEnd | Fault::Unmade => 3,
        }
    }

    // The first byte in fault, counted from the packet's first as 0.
    pub fn place(self) -> usize
        ensures { result ≡ fault_place self }
    {
        match self {
            Fault::NoMark => 0,
            Fault::CutShort(at) | Fault::TooLong(at) | Fault::BadInput(at) => at,
            Fault::TooMany => COUNT_AT,
            Fault::PastEnd => FIRST_AT,
            Fault::Unmade => ACK_AT,
        }
    }
}

// Why a packet is not written.
#[derive(Clone, Copy, PartialEq, Eq, Debug)]
pub enum Unwritten {
    // It has more than 120 inputs.
    Overfull,
    // The lent slice is too short for it.
    NoRoom,
}
