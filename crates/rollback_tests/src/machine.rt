// A peer with memory of its own, which is lent to it at each call.
use game::saved::SavedGame;
use game::seat::Seat;
use peer::memory::INPUTS;
use peer::{Peer, Refusal};
use rollback::Outcome;
use rollback::events::{begin, receive, tick};
use rollback::shown::shown;
use std::alloc::Global;
use std::test::Fail;

#[derive(Drop)]
pub(crate) struct Machine {
    pub(crate) p: Peer,
    pub(crate) inputs: Vec<u8>,
    pub(crate) states: Vec<u8>,
}

impl Machine {
    // A peer that has just begun, in memory that held something else before, with so many bytes for states.
    pub(crate) fn begin<G: SavedGame>(
        heap: Global,
        seat: Seat,
        window: usize,
        room: usize,
    ) -> Result<Machine, Fail> {
        let inputs = vec![in heap; 7u8; INPUTS]?;
        let mut states = vec![in heap; 9u8; room]?;
        let p = begin::<G>(seat, window, &inputs, &mut states)?;
        Ok(Machine { p, inputs, states })
    }

    pub(crate) fn tick<G: SavedGame>(&mut self, input: u8) -> Outcome {
        tick::<G>(&mut self.p, &mut self.inputs, &mut self.states, input)
    }

    pub(crate) fn receive<G: SavedGame>(&mut self, bytes: &[u8]) -> Outcome {
        receive::<G>(&mut self.p, &mut self.inputs, &mut self.states, bytes)
    }

    pub(crate) fn shown<G: SavedGame>(&self) -> Result<G, Refusal> {
        shown(&self.p, &self.states)
    }
}
