// One of the two machines: a tick with the packet that it writes, and a packet that comes.
ghost use Rattle.std.specs.Prelude.{◌≡◌, ℕ, true, List, ◌++◌, map, vec_items, Some, None, length, is_some, is_err, IfOk, IfSome, OnOk, ◌≢◌, nat_lt};
ghost use Rattle.game.specs.declared.seat.Seat.{Seat as At};
ghost use Rattle.network.specs.Network.{Network, Turn, facing};
ghost use Rattle.rollback.specs.declared.outcome.Outcome.TheVariants.{Refused as Unfit};
ghost use Rattle.peer.specs.Peers.{tick, arrival, sends};
ghost use Rattle.peer.specs.Lent.{log_of};
ghost use Rattle.session.specs.Events.{writes};
ghost use Rattle.peer.specs.declared.refusal.Refusal.{Refusal};
ghost use Rattle.exchange.specs.declared.moves.Act.TheVariants.{Tick, Deliver};
ghost use Rattle.exchange.specs.Moves.{court_network, acted, memory_of, said_of, bytes_of, packet_if, HappenedTo, SameLent, PeerAt, PacketsAt};
ghost use Rattle.exchange.specs.Tallies.{counted_by, counted_at};

use crate::moves::Act;
use crate::tally::Tally;
use peer::Peer;
use rollback::Outcome;
use session::Happening;
use session::calls::{PACKET_LENGTH, happen};
use std::alloc::AllocError;

// A peer over lent memory, and what its events came to.
#[derive(Drop)]
pub struct Machine<'a> {
    pub peer: Peer,
    pub inputs: &'a mut [u8],
    pub states: &'a mut [u8],
    pub tally: Tally,
}

impl<'a> Machine<'a> {
    // A frame's time, and the packet that is then written. Without memory for the packet the event has happened all the same.
    // `deliver` calls `happen` in the same way: a function for both would have to repeat all that `happen` ensures.
    pub fn tick(&mut self, input: u8, sent: &mut Vec<Vec<u8>>) -> Result<Outcome, AllocError>
        ensures at { OnOk result ((window : ℕ) (n : Network) (seat : At) → PeerAt window n seat (memory_of self.old) → PacketsAt n (facing seat) sent.old.items → PeerAt window (acted window n seat (Tick input)) seat (memory_of self.new) × PacketsAt (acted window n seat (Tick input)) (facing seat) sent.new.items) }
        ensures answer { IfOk result (λ o. o ≡ said_of self.old (tick input)) }
        ensures happens { HappenedTo self.old (tick input) self.new }
        ensures packet { IfOk result (λ o. map vec_items sent.new.items ≡ map vec_items sent.old.items ++ packet_if (writes (tick input) o) (sends (log_of self.new.peer self.new.inputs.now))) }
        ensures unsent { is_err result ≡ true → sent.new.items ≡ sent.old.items }
        ensures tally { self.new.tally ≡ counted_by (Tick input) (said_of self.old (tick input)) self.old.tally }
        ensures lent { SameLent self.old self.new }
    {
        let mut out = [0; PACKET_LENGTH];
        let answer = happen(
            &mut self.peer,
            self.inputs,
            self.states,
            Happening::Tick(input),
            &mut out,
        );
        self.tally = self.tally.counted(Act::Tick(input), answer.outcome);
        if let Some(length) = answer.sent {
            let heap = *sent.allocator();
            sent.push(Vec::from_slice(heap, &out[..length])?)?;
        }
        Ok(answer.outcome)
    }

    // A packet of those that were written to this machine comes to it. Nothing happens where there is none of that number; and none
    // is refused that a machine like this one wrote.
    pub fn deliver(&mut self, packets: &[Vec<u8>], number: usize) -> Option<Outcome>
        ensures there { is_some result ≡ nat_lt number (length packets.now) }
        ensures at { (window : ℕ) (n : Network) (seat : At) → PeerAt window n seat (memory_of self.old) → PacketsAt n seat packets.now → PeerAt window (acted window n seat (Deliver number)) seat (memory_of self.new) }
        ensures taken { (window : ℕ) (ts : List Turn) (seat : At) → PeerAt window (court_network window ts) seat (memory_of self.old) → PacketsAt (court_network window ts) seat packets.now → (f : Refusal) → result ≢ Some (Unfit f) }
        ensures answer { IfSome result (λ o. o ≡ said_of self.old (arrival (bytes_of packets.now number))) }
        ensures happens { is_some result ≡ true → HappenedTo self.old (arrival (bytes_of packets.now number)) self.new }
        ensures idle { result ≡ None → self.new ≡ self.old }
        ensures tally { IfSome result (λ o. self.new.tally ≡ counted_by (Deliver number) o self.old.tally) }
        ensures lent { SameLent self.old self.new }
    {
        let packet = packets.get(number)?;
        let mut out = [0; PACKET_LENGTH];
        let answer = happen(
            &mut self.peer,
            self.inputs,
            self.states,
            Happening::Arrival(packet),
            &mut out,
        );
        self.tally = self.tally.counted(Act::Deliver(number), answer.outcome);
        Some(answer.outcome)
    }

    // One or the other.
    pub(crate) fn act(
        &mut self,
        act: Act,
        packets: &[Vec<u8>],
        sent: &mut Vec<Vec<u8>>,
    ) -> Result<(), AllocError>
        ensures at { OnOk result ((window : ℕ) (n : Network) (seat : At) → PeerAt window n seat (memory_of self.old) → PacketsAt n seat packets.now → PacketsAt n (facing seat) sent.old.items → PeerAt window (acted window n seat act) seat (memory_of self.new) × PacketsAt (acted window n seat act) (facing seat) sent.new.items) }
        ensures tally { (window : ℕ) (n : Network) (seat : At) → PeerAt window n seat (memory_of self.old) → PacketsAt n seat packets.now → self.new.tally ≡ counted_at window n seat act self.old.tally }
        ensures lent { SameLent self.old self.new }
    {
        match act {
            Act::Tick(input) => {
                self.tick(input, sent)?;
            }
            Act::Deliver(number) => {
                self.deliver(packets, number);
            }
        }
        Ok(())
    }
}
