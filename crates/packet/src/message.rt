// What a packet says: the sender's inputs from a first frame on, and how many of the other's inputs it has.
#[derive(Clone, Copy, PartialEq, Eq, Debug)]
pub struct Packet<'a> {
    pub first: u32,
    pub ack: u32,
    pub inputs: &'a [u8],
}
