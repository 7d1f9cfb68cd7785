// What an event at a peer comes to.
use peer::Refusal;

#[derive(Clone, Copy, PartialEq, Eq, Debug)]
pub enum Outcome {
    // The tick or the packet was taken: how many frames were played for it.
    Taken(usize),
    // The tick came too early: the peer is as far ahead as it may be, or has played all frames.
    Lost,
    // What was refused changed nothing.
    Refused(Refusal),
}
