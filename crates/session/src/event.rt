// What happens at a peer, and what it came to.
use rollback::Outcome;

#[derive(Clone, Copy, PartialEq, Eq, Debug)]
pub enum Happening<'a> {
    // A frame's time, with the input at the peer's own seat.
    Tick(u8),
    // Bytes that came from the other.
    Arrival(&'a [u8]),
}

#[derive(Clone, Copy, PartialEq, Eq, Debug)]
pub struct Answer {
    pub outcome: Outcome,
    // The length of the packet that was written, if one was; its bytes lie in memory that the caller lends.
    pub sent: Option<usize>,
}
