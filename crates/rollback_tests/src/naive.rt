// A peer as a reader of the rules would write it: its inputs in lists, and what it shows played from the start each time.
use game::saved::SavedGame;
use game::seat::Seat;
use std::alloc::Global;
use std::test::Fail;

// The rules' numbers once more: nothing here is the engine's.
const LARGEST_INPUT: u8 = 15;

const MOST_INPUTS: usize = 120;

const MOST_FRAMES: usize = 1_000_000;

// What an event came to: an `Outcome`, but for why something was refused, which this peer does not say.
#[derive(Clone, Copy, PartialEq, Eq, Debug)]
pub(crate) enum Told {
    Taken(usize),
    Lost,
    Refused,
}

#[derive(Drop)]
pub(crate) struct Naive {
    pub(crate) seat: Seat,
    pub(crate) window: usize,
    pub(crate) own: Vec<u8>,
    pub(crate) other: Vec<u8>,
    pub(crate) acked: usize,
}

// The input that is taken for a frame: the last of those that came for it and for the frames before it, or 0.
pub(crate) fn taken_for(other: &[u8], frame: usize) -> u8 {
    let came = other.get(..frame.saturating_add(1)).unwrap_or(other);
    came.last().copied().unwrap_or(0)
}

// What a packet says.
#[derive(Clone, Copy)]
struct Said<'a> {
    first: usize,
    ack: usize,
    inputs: &'a [u8],
}

// What bytes say, if they are a packet.
fn read(bytes: &[u8]) -> Option<Said> {
    let [b'H', f0, f1, f2, f3, count, a0, a1, a2, a3, inputs @ ..] = bytes else {
        return None;
    };
    let first = usize::try_from(u32::from_le_bytes([*f0, *f1, *f2, *f3])).ok()?;
    let ack = usize::try_from(u32::from_le_bytes([*a0, *a1, *a2, *a3])).ok()?;
    let whole = usize::from(*count) == inputs.len() && inputs.len() <= MOST_INPUTS;
    let early = first <= MOST_FRAMES && first + inputs.len() <= MOST_FRAMES;
    let good = whole && early && inputs.iter().all(|input| *input <= LARGEST_INPUT);
    good.then_some(Said { first, ack, inputs })
}

impl Naive {
    pub(crate) fn new(heap: Global, seat: Seat, window: usize) -> Naive {
        Naive {
            seat,
            window,
            own: Vec::new(heap),
            other: Vec::new(heap),
            acked: 0,
        }
    }

    pub(crate) fn tick(&mut self, input: u8) -> Result<Told, Fail> {
        if input > LARGEST_INPUT {
            return Ok(Told::Refused);
        }
        let ahead = self.own.len().saturating_sub(self.other.len());
        if ahead >= self.window {
            return Ok(Told::Lost);
        }
        self.own.push(input)?;
        Ok(Told::Taken(1))
    }

    pub(crate) fn receive(&mut self, bytes: &[u8]) -> Result<Told, Fail> {
        let Some(said) = read(bytes) else {
            return Ok(Told::Refused);
        };
        if said.ack > self.own.len() {
            return Ok(Told::Refused);
        }
        let before = self.other.len();
        if let Some(known) = before.checked_sub(said.first) {
            for input in said.inputs.iter().skip(known) {
                self.other.push(*input)?;
            }
        }
        self.acked = self.acked.max(said.ack);
        Ok(Told::Taken(self.changed(before)))
    }

    // How many frames there are from the first on whose input changed, where so many had come before.
    fn changed(&self, before: usize) -> usize {
        let other = self.other.as_slice();
        let old = &other[..before.min(other.len())];
        let frames = self.own.len();
        (0..frames)
            .find(|frame| taken_for(old, *frame) != taken_for(other, *frame))
            .map_or(0, |frame| frames - frame)
    }

    pub(crate) fn shows<G: SavedGame>(&self) -> G {
        let mut state = G::start();
        for (frame, own) in self.own.iter().enumerate() {
            let other = taken_for(&self.other, frame);
            let (left, right) = self.seat.in_order(*own, other);
            state = state.advance(left, right);
        }
        state
    }
}
