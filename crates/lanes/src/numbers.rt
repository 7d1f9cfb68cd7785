// A peer at SEATS seats: its numbers, and what it does with inputs in lent memory.
ghost use Rattle.std.specs.Prelude.{◌≡◌, ℕ, List, ◌<◌, ◌≤◌, ◌+◌, ◌*◌, ◌++◌, ◌∷◌, [], length, if◌then◌else◌, Ok, Err, IfOk, MatchResult, slice_index};
ghost use Rattle.peer.specs.Refusals.{window_checked};
ghost use Rattle.packet.specs.Wire.{message_of};
ghost use Rattle.seats.specs.Packets.{packet_of};
ghost use Rattle.seats.specs.Plain.{most_frames};
ghost use Rattle.seats.specs.Peers.{largest_window};
ghost use Rattle.lanes.specs.Lanes.{most_seats, lane_start, HasInputRoom};

use crate::lane::Lane;
use crate::least::{least_of, least_of_others};
use crate::predicted::predicted_input;
use game::plain::MOST_FRAMES;
use packet::Packet;
use peer::Refusal;
use peer::log::fresh;
use peer::numbers::check_window;

/// A peer at one of SEATS seats. Its inputs lie in memory that is lent anew at each call.
#[derive(Clone, Copy, PartialEq, Eq, Debug)]
pub struct Peer<const SEATS: usize> {
    pub seat: usize,
    /// How many inputs it may have made beyond those that it has of the slowest other.
    pub window: usize,
    /// How many inputs it has of each seat, its own among them.
    pub lanes: [Lane; SEATS],
    /// The most of its own inputs that each seat acknowledged.
    pub acked: [usize; SEATS],
    ghost here: { (seat < SEATS) × (SEATS ≤ most_seats) },
    ghost span: { (1 ≤ window) × (window ≤ largest_window) },
}

impl<const SEATS: usize> Peer<SEATS> {
    ghost use Rattle.lanes.specs.Lent.{lane_counts, log_of, KeepsBytes};
    ghost use Rattle.seats.specs.Peers.{new_log, own, fewest, acked_by_all, may_play, with_row, with_message, with_packet, predicted_inputs, confirmed};

    /// A peer that has no inputs yet, or that it may not have such a window.
    pub fn new(seat: usize, window: usize) -> Result<Peer<SEATS>, Refusal>
        requires { (seat < SEATS) × (SEATS ≤ most_seats) }
        ensures answer { MatchResult result (λ _. window_checked window ≡ Ok tt)
            (λ f. window_checked window ≡ Err f) }
        ensures window { IfOk result (λ p. p.window ≡ window) }
        ensures new { IfOk result (λ p. (inputs : List ℕ) →
            log_of p inputs ≡ new_log SEATS seat) }
    {
        check_window(window)?;
        Ok(Peer {
            seat,
            window,
            lanes: [Lane::new(); SEATS],
            acked: [0; SEATS],
        })
    }

    /// Where a seat's lane begins in lent memory: its own first, then the others in their order.
    pub fn lane_start(&self, seat: usize) -> usize
        requires { seat < SEATS }
        ensures start { result ≡ lane_start self.now.seat seat }
        ensures within { result + most_frames ≤ SEATS * most_frames }
    {
        let place = if seat == self.seat {
            0
        } else if seat < self.seat {
            seat + 1
        } else {
            seat
        };
        MOST_FRAMES * place
    }

    /// How many inputs it has of each seat.
    pub fn counts(&self) -> [usize; SEATS]
        ensures { result ≡ lane_counts self.now }
    {
        let mut counts = [0; SEATS];
        for seat in 0..SEATS {
            counts[seat] = self.lanes[seat].known;
        }
        counts
    }

    /// The fewest inputs that it has of another seat.
    pub fn fewest(&self) -> usize
        ensures few { result ≤ most_frames }
        ensures value { (inputs : List ℕ) → HasInputRoom SEATS inputs →
            result ≡ fewest (log_of self.now inputs) }
    {
        least_of_others(&self.counts(), self.seat)
    }

    /// Of how many frames it has the inputs of all seats.
    pub fn confirmed(&self) -> usize
        ensures { (inputs : List ℕ) → HasInputRoom SEATS inputs →
            result ≡ confirmed (log_of self.now inputs) }
    {
        least_of(&self.counts())
    }

    /// As many of its own inputs are acknowledged by every other seat.
    pub fn acked_by_all(&self) -> usize
        ensures { (inputs : List ℕ) → result ≡ acked_by_all (log_of self.now inputs) }
    {
        least_of_others(&self.acked, self.seat)
    }

    /// Whether a tick plays a frame.
    pub fn may_play(&self) -> bool
        ensures { (inputs : List ℕ) → HasInputRoom SEATS inputs →
            result ≡ may_play self.now.window (log_of self.now inputs) }
    {
        let own = self.lanes[self.seat].known;
        own < MOST_FRAMES && own < self.fewest() + self.window
    }

    /// A frame's time, with the input at its own seat: whether a frame is played.
    pub fn tick(&mut self, inputs: &mut [u8], input: u8) -> bool
        requires { HasInputRoom SEATS inputs.old }
        ensures seat { self.new.seat ≡ self.old.seat }
        ensures window { self.new.window ≡ self.old.window }
        ensures played { result ≡ may_play self.old.window (log_of self.old inputs.old) }
        ensures log { let log = log_of self.old inputs.old in
            let more = with_row log log.seat (own log ++ input ∷ []) in
            log_of self.new inputs.new ≡ (if result then more else log) }
        ensures bytes { KeepsBytes self.old self.new inputs.old inputs.new }
    {
        let played = self.may_play();
        if played {
            self.push_own(inputs, input);
        }
        played
    }

    /// One input more of its own.
    pub fn push_own(&mut self, inputs: &mut [u8], input: u8)
        requires long { HasInputRoom SEATS inputs.old }
        requires room { slice_index (lane_counts self.old) self.old.seat < most_frames }
        ensures seat { self.new.seat ≡ self.old.seat }
        ensures window { self.new.window ≡ self.old.window }
        ensures log { let log = log_of self.old inputs.old in
            log_of self.new inputs.new ≡ with_row log log.seat (own log ++ input ∷ []) }
        ensures bytes { KeepsBytes self.old self.new inputs.old inputs.new }
    {
        let lane = self.lanes[self.seat];
        inputs[lane.known] = input;
        self.lanes[self.seat] = lane.longer(1);
    }

    /// A message of a seat: its inputs join on, and what it acknowledges is known.
    pub fn join(&mut self, inputs: &mut [u8], seat: usize, packet: Packet)
        requires long { HasInputRoom SEATS inputs.old }
        requires there { seat < SEATS }
        requires whole { packet.first + length packet.inputs.now ≤ most_frames }
        ensures seat { self.new.seat ≡ self.old.seat }
        ensures window { self.new.window ≡ self.old.window }
        ensures log { let message = message_of packet.entry in
            log_of self.new inputs.new ≡ with_message (log_of self.old inputs.old) seat message }
        ensures bytes { KeepsBytes self.old self.new inputs.old inputs.new }
    {
        let lane = self.lanes[seat];
        let new = fresh(lane.known, packet.first as usize, packet.inputs);
        let at = self.lane_start(seat) + lane.known;
        inputs[at..at + new.len()].copy_from_slice(new);
        self.lanes[seat] = lane.longer(new.len());
        self.acked[seat] = self.acked[seat].max(packet.ack as usize);
    }

    /// A packet that was read: one of its own seat changes nothing.
    pub fn receive(&mut self, inputs: &mut [u8], seat: usize, packet: Packet)
        requires long { HasInputRoom SEATS inputs.old }
        requires there { seat < SEATS }
        requires whole { packet.first + length packet.inputs.now ≤ most_frames }
        ensures seat { self.new.seat ≡ self.old.seat }
        ensures window { self.new.window ≡ self.old.window }
        ensures log { let packet = packet_of seat (Ok (message_of packet.entry)) in
            log_of self.new inputs.new ≡ with_packet (log_of self.old inputs.old) packet }
        ensures bytes { KeepsBytes self.old self.new inputs.old inputs.new }
    {
        if seat != self.seat {
            self.join(inputs, seat, packet);
        }
    }

    /// The inputs of a frame, of every seat, predicted where they have not come.
    pub fn predicted_inputs(&self, inputs: &[u8], frame: usize) -> [u8; SEATS]
        requires { HasInputRoom SEATS inputs.now }
        ensures { result ≡ predicted_inputs (log_of self.now inputs.now).rows frame }
    {
        let mut row = [0; SEATS];
        for seat in 0..SEATS {
            let start = self.lane_start(seat);
            let known = self.lanes[seat].known;
            row[seat] = predicted_input(&inputs[start..start + known], frame);
        }
        row
    }
}
