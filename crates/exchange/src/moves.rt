// What happens at two machines, and the packets between them.
use game::seat::Seat;

// What happens at one of them.
#[derive(Clone, Copy, PartialEq, Eq, Debug)]
pub enum Act {
    // A frame's time, with the input there; the packet that is then sent is written.
    Tick(u8),
    // A packet of those written to it comes, by its number from 0.
    Deliver(usize),
}

#[derive(Clone, Copy, PartialEq, Eq, Debug)]
pub struct Move {
    pub seat: Seat,
    pub act: Act,
}
