// Games of two peers over a radio that loses and delays packets, both in one process; no event allocates.

ghost use Rattle.std.specs.Prelude.{◌<◌, ◌≤◌, IfSome};

use game::seat::Seat;
use peer::Peer;
use peer::memory::{INPUTS, MOST_STATES};
use picture::LENGTH;
use rollback::Outcome;
use session::calls::{PACKET_LENGTH, begin, happen, status};
use session::{Happening, Refused, Status};
use std::alloc::Global;
use std::mem;

const WINDOW: usize = 20;

// A packet comes 2 to 17 ticks later.
const SOONEST: usize = 2;

const LATEST: usize = 17;

// A constant's value calls no `from`.
const DELAYS: u64 = (LATEST - SOONEST + 1) as u64;

// Of so many packets one is lost.
const CHANCES: u64 = 8;

const FLIGHTS: usize = 32;

// Numbers by the seed: each state is the one before times FACTOR, plus ADDED. `radio` has them too: a library for two functions
// would be longer.
#[derive(Drop)]
pub(crate) struct Random(pub(crate) u64);

const FACTOR: u64 = 6_364_136_223_846_793_005;

const ADDED: u64 = 1_442_695_040_888_963_407;

impl Random {
    // One of 0 up to a number, that one left out.
    fn below(&mut self, n: u64) -> u64
        requires { 0 < n }
        ensures { result < n }
    {
        self.0 = self.0.wrapping_mul(FACTOR).wrapping_add(ADDED);
        (self.0 >> 33) % n
    }

    // After how many ticks a packet comes; none where it is lost.
    fn delay(&mut self) -> Option<usize>
        ensures { IfSome result (λ d. d ≤ 17) }
    {
        let lost = self.below(CHANCES) == 0;
        let late = self.below(DELAYS) as usize;
        if lost { None } else { Some(SOONEST + late) }
    }
}

// The packets under way to a machine, by the tick at which they were sent, modulo a number above the latest delay.
#[derive(Drop)]
struct Air {
    packets: [[u8; PACKET_LENGTH]; FLIGHTS],
    lengths: [usize; FLIGHTS],
    // Of the packets that come at a tick: after how many ticks, a bit for each.
    coming: [u32; FLIGHTS],
}

impl Air {
    fn new() -> Air {
        Air {
            packets: [[0; PACKET_LENGTH]; FLIGHTS],
            lengths: [0; FLIGHTS],
            coming: [0; FLIGHTS],
        }
    }
}

// A peer, the memory that it is lent, and what its events came to. It is not `exchange`'s, which keeps all packets.
#[derive(Drop)]
pub(crate) struct Machine {
    peer: Peer,
    inputs: Vec<u8>,
    states: Vec<u8>,
    picture: Vec<u8>,
    pub(crate) events: usize,
    pub(crate) frames: usize,
}

impl Machine {
    pub(crate) fn new(heap: Global, seat: Seat) -> anyhow::Result<Machine> {
        let inputs = vec![in heap; 0u8; INPUTS]?;
        let mut states = vec![in heap; 0u8; MOST_STATES]?;
        let picture = vec![in heap; 0u8; LENGTH]?;
        let peer = begin(seat, WINDOW, &inputs, &mut states, &picture)?;
        Ok(Machine {
            peer,
            inputs,
            states,
            picture,
            events: 0,
            frames: 0,
        })
    }

    // A new game, over the same memory.
    fn begin(&mut self) -> Result<(), Refused> {
        let seat = self.peer.seat;
        self.peer = begin(seat, WINDOW, &self.inputs, &mut self.states, &self.picture)?;
        Ok(())
    }

    pub(crate) fn status(&self) -> Result<Status, Refused> {
        status(&self.peer, &self.states)
    }

    // One event. Hands back the length of the packet that is written for it, if one is.
    fn happen(&mut self, event: Happening, out: &mut [u8; PACKET_LENGTH]) -> Option<usize> {
        let answer = happen(
            &mut self.peer,
            &mut self.inputs,
            &mut self.states,
            event,
            out,
        );
        self.events = self.events.wrapping_add(1);
        if let Outcome::Taken(frames) = answer.outcome {
            self.frames = self.frames.wrapping_add(frames);
        }
        answer.sent
    }

    // The packets that come at a tick, in the order in which they were sent.
    fn hear(&mut self, tick: usize, air: &mut Air) {
        let mut out = [0; PACKET_LENGTH];
        let coming = mem::take(&mut air.coming[tick % FLIGHTS]);
        for delay in (SOONEST..=LATEST).rev() {
            if coming >> delay & 1 == 1 {
                let slot = tick.wrapping_sub(delay) % FLIGHTS;
                if let Some(packet) = air.packets[slot].get(..air.lengths[slot]) {
                    self.happen(Happening::Arrival(packet), &mut out);
                }
            }
        }
    }

    // The peer's own input for its next frame, by a file of frames.
    fn next_input(&self, frames: &[u8]) -> u8 {
        let frame = frames.get(self.peer.own).copied().unwrap_or(0);
        match self.peer.seat {
            Seat::Left => frame % 16,
            Seat::Right => frame / 16,
        }
    }

    // A tick; its packet goes to the other.
    fn tick(&mut self, tick: usize, frames: &[u8], air: &mut Air, random: &mut Random) {
        let event = Happening::Tick(self.next_input(frames));
        let slot = tick % FLIGHTS;
        let sent = self.happen(event, &mut air.packets[slot]);
        air.lengths[slot] = sent.unwrap_or(0);
        if let Some(delay) = random.delay() {
            air.coming[tick.wrapping_add(delay) % FLIGHTS] |= 1 << delay;
        }
    }
}

// A game of so many ticks, at each the left machine first. Both have their inputs from the same file of frames.
pub(crate) fn play_game(
    left: &mut Machine,
    right: &mut Machine,
    ticks: usize,
    frames: &[u8],
    random: &mut Random,
) -> Result<(), Refused> {
    left.begin()?;
    right.begin()?;
    let mut to_left = Air::new();
    let mut to_right = Air::new();
    for tick in 0..ticks {
        left.hear(tick, &mut to_left);
        left.tick(tick, frames, &mut to_right, random);
        right.hear(tick, &mut to_right);
        right.tick(tick, frames, &mut to_left, random);
    }
    Ok(())
}
