// A session with memory of its own, which is lent to it at each call.
use game::seat::Seat;
use peer::Peer;
use peer::memory::INPUTS;
use picture::LENGTH;
use rollback::Outcome;
use session::calls::{PACKET_LENGTH, begin, hand_out, happen, status};
use session::file::event_at;
use session::sending::happen_keeping;
use session::sounding::happen_sounding;
use session::{Answer, Happening, Refused, Status};
use std::alloc::{AllocError, Global};
use std::test::Fail;

#[derive(Drop)]
pub(crate) struct Machine {
    pub(crate) p: Peer,
    pub(crate) inputs: Vec<u8>,
    pub(crate) states: Vec<u8>,
    // Where its packets are written.
    pub(crate) packet: [u8; PACKET_LENGTH],
}

impl Machine {
    // A session that has just begun, in memory that held something else before, with so many bytes for states.
    pub(crate) fn begin(
        heap: Global,
        seat: Seat,
        window: usize,
        room: usize,
    ) -> Result<Machine, Fail> {
        let inputs = vec![in heap; 7u8; INPUTS]?;
        let mut states = vec![in heap; 0u8; room]?;
        let picture = vec![in heap; 0u8; LENGTH]?;
        let p = begin(seat, window, &inputs, &mut states, &picture)?;
        Ok(Machine {
            p,
            inputs,
            states,
            packet: [99; PACKET_LENGTH],
        })
    }

    // One event, as a file has it.
    pub(crate) fn step(&mut self, file: &[u8]) -> Result<Answer, Fail> {
        let event = event_at(file, 0)?.event;
        Ok(happen(
            &mut self.p,
            &mut self.inputs,
            &mut self.states,
            event,
            &mut self.packet,
        ))
    }

    // One event, and its packet behind those before.
    pub(crate) fn keep(
        &mut self,
        event: Happening,
        packets: &mut Vec<u8>,
    ) -> Result<Outcome, AllocError> {
        happen_keeping(
            &mut self.p,
            &mut self.inputs,
            &mut self.states,
            event,
            packets,
        )
    }

    // One event, with its packet and its sound behind those before.
    pub(crate) fn hear(
        &mut self,
        event: Happening,
        packets: &mut Vec<u8>,
        sounds: &mut Vec<u8>,
    ) -> Result<Outcome, AllocError> {
        happen_sounding(
            &mut self.p,
            &mut self.inputs,
            &mut self.states,
            event,
            packets,
            sounds,
        )
    }

    pub(crate) fn hand_out(&self, sound: &mut [u8]) -> Result<(), Refused> {
        hand_out(&self.p, &self.states, sound)
    }

    pub(crate) fn status(&self) -> Result<Status, Refused> {
        status(&self.p, &self.states)
    }
}
