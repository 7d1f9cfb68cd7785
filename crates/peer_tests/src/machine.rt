// A peer with memory of its own, which is lent to it at each call.
use packet::Packet;
use peer::memory::INPUTS;
use peer::outgoing::outgoing;
use peer::{Peer, Refusal};
use std::alloc::Global;
use std::test::Fail;

#[derive(Drop)]
pub(crate) struct Machine {
    pub(crate) p: Peer,
    pub(crate) inputs: Vec<u8>,
}

impl Machine {
    // A peer in memory that held something else before.
    pub(crate) fn new(heap: Global, p: Peer) -> Result<Machine, Fail> {
        let inputs = vec![in heap; 7u8; INPUTS]?;
        Ok(Machine { p, inputs })
    }

    pub(crate) fn outgoing(&self) -> Result<Packet<'_>, Refusal> {
        outgoing(&self.p, self.inputs.as_slice())
    }
}
