// Two machines and a bad radio, as a test: both tick in turn, and the radio loses, doubles and delays packets, by a seeded generator.
//
//     radio SEED N TICKS LOSS TWICE DELAY ..
//
// N is the window; LOSS and TWICE are out of 256; a packet comes 2 to DELAY ticks later. After TICKS ticks the radio is good for
// 150 more. Several rows of six numbers are played one after the other. docs/RULES.md has the generator.

#![tactic(auto)]

use anyhow::{Context, anyhow, bail};
use court_game::plain::play;
use exchange::moves::{Act, Move};
use exchange::run::{Both, Played, Unplayed, play_moves};
use exchange::tally::Tally;
use game::seat::Seat;
use peer::log::HALF;
use peer::memory::{INPUTS, MOST_STATES};
use picture::LENGTH;
use session::calls::status;
use std::alloc::{AllocError, Global};
use std::env;
use std::process::ExitCode;

const USAGE: &str = "usage: radio SEED N TICKS LOSS TWICE DELAY ..";

// How many numbers a row has.
const NUMBERS: usize = 6;

// Ticks of a good radio at the end.
const GOOD: u64 = 150;

// LOSS and TWICE are out of so many.
const CHANCES: u64 = 256;

// No packet comes sooner, in ticks.
const SOONEST: u64 = 2;

// An input is held for so many ticks, on average.
const HELD: u64 = 8;

// Inputs are the numbers below this one.
const INPUTS_BELOW: u64 = 16;

// One row of the command line.
#[derive(Clone, Copy)]
struct Options {
    seed: u64,
    window: usize,
    ticks: u64,
    loss: u64,
    twice: u64,
    delay: u64,
}

impl TryFrom<&[u64]> for Options {
    type Error = anyhow::Error;

    fn try_from(row: &[u64]) -> anyhow::Result<Options> {
        let [seed, window, ticks, loss, twice, delay] = row else {
            bail!(USAGE);
        };
        Ok(Options {
            seed: *seed,
            window: usize::try_from(*window)?,
            ticks: *ticks,
            loss: *loss,
            twice: *twice,
            delay: *delay,
        })
    }
}

// Numbers by the seed: each state is the one before times FACTOR, plus ADDED.
#[derive(Drop)]
struct Random(u64);

const FACTOR: u64 = 6_364_136_223_846_793_005;

const ADDED: u64 = 1_442_695_040_888_963_407;

impl Random {
    // One of 0 up to a number, that one left out; 0 where there is none.
    fn below(&mut self, n: u64) -> u64 {
        self.0 = self.0.wrapping_mul(FACTOR).wrapping_add(ADDED);
        let high = self.0 >> 33;
        high.checked_rem(n).unwrap_or(0)
    }
}

// A packet under way: when it comes, where to, and its number there.
#[derive(Clone, Copy)]
struct Flight {
    due: u64,
    seat: Seat,
    number: usize,
}

// A bad radio: the packets under way, and the moves that were made.
#[derive(Drop)]
struct Radio {
    options: Options,
    random: Random,
    air: Vec<Flight>,
    moves: Vec<Move>,
}

impl Radio {
    fn new(heap: Global, options: Options) -> Radio {
        Radio {
            options,
            random: Random(options.seed),
            air: Vec::new(heap),
            moves: Vec::new(heap),
        }
    }

    // What the radio does with a packet that is sent when it is due: it is lost, or comes once or twice, each time after a delay of its own.
    fn send(&mut self, flight: Flight) -> Result<(), AllocError> {
        let lost = self.random.below(CHANCES) < self.options.loss;
        let twice = self.random.below(CHANCES) < self.options.twice;
        let most = self.options.delay.saturating_sub(1);
        let late = [self.random.below(most), self.random.below(most)];
        let delays: &[u64] = if flight.due >= self.options.ticks {
            &[0]
        } else if lost {
            &[]
        } else if twice {
            &late
        } else {
            &late[..1]
        };
        for delay in delays {
            let due = flight.due.saturating_add(SOONEST).saturating_add(*delay);
            self.air.push(Flight { due, ..flight })?;
        }
        Ok(())
    }

    // The packets that come to a machine now.
    fn deliver(&mut self, tick: u64, seat: Seat) -> Result<(), AllocError> {
        for flight in &self.air {
            if flight.due == tick && flight.seat == seat {
                let act = Act::Deliver(flight.number);
                self.moves.push(Move { seat, act })?;
            }
        }
        Ok(())
    }

    // One machine's tick: what comes, the tick, and its packet. An input is held for some ticks, as a crew holds a key.
    fn tick(&mut self, tick: u64, seat: Seat, held: u8) -> anyhow::Result<u8> {
        let changes = self.random.below(HELD) == 0;
        let next = u8::try_from(self.random.below(INPUTS_BELOW))?;
        let input = if changes { next } else { held };
        self.deliver(tick, seat)?;
        let act = Act::Tick(input);
        self.moves.push(Move { seat, act })?;
        let flight = Flight {
            due: tick,
            seat: seat.facing(),
            number: usize::try_from(tick)?,
        };
        self.send(flight)?;
        Ok(input)
    }
}

// All moves of a game.
fn make_moves(heap: Global, options: Options) -> anyhow::Result<Vec<Move>> {
    let mut radio = Radio::new(heap, options);
    let mut left = 0;
    let mut right = 0;
    for tick in 0..options.ticks.saturating_add(GOOD) {
        left = radio.tick(tick, Seat::Left, left)?;
        right = radio.tick(tick, Seat::Right, right)?;
    }
    Ok(radio.moves)
}

// The memory that is lent to a machine. `play` and `exchange_tests` have such a struct too: a library of two `vec!`s, with its
// contract, edit and test, would be longer than all three.
#[derive(Drop)]
struct Memory {
    inputs: Vec<u8>,
    states: Vec<u8>,
}

impl Memory {
    fn new(heap: Global) -> Result<Memory, AllocError> {
        Ok(Memory {
            inputs: vec![in heap; 0u8; INPUTS]?,
            states: vec![in heap; 0u8; MOST_STATES]?,
        })
    }
}

// What a machine came to.
fn print_side(rt: &HostRuntime, name: &str, side: Played, states: &[u8]) -> anyhow::Result<()> {
    let Tally {
        lost,
        refused,
        played,
        again,
    } = side.tally;
    match status(&side.peer, states) {
        Ok(status) => println!(rt;
            "{name} {status} lost {lost} refused {refused} played {played} again {again}"
        )?,
        Err(refused) => println!(rt; "{refused}")?,
    }
    Ok(())
}

// The inputs of seat 0 and of seat 1 in the first frames, as a machine has them; none where they do not lie there.
fn inputs_at(seat: Seat, inputs: &[u8], frames: usize) -> Option<(&[u8], &[u8])> {
    let own = inputs.get(..frames)?;
    let other = inputs.get(HALF..HALF.saturating_add(frames))?;
    Some(seat.in_order(own, other))
}

// The first frame in which two rows of inputs differ. `recording` has this line too, for itself.
fn difference(one: &[u8], other: &[u8]) -> Option<usize> {
    one.iter().zip(other).position(|(x, y)| x != y)
}

// Both machines have the same inputs and come to the same state, in so many first frames; or else the frame at which they differ.
fn compare(left: &[u8], right: &[u8], frames: usize) -> Result<(), usize> {
    let at_left = inputs_at(Seat::Left, left, frames).ok_or(frames)?;
    let at_right = inputs_at(Seat::Right, right, frames).ok_or(frames)?;
    let differs = difference(at_left.0, at_right.0).or(difference(at_left.1, at_right.1));
    if let Some(frame) = differs {
        return Err(frame);
    }
    if play(at_left.0, at_left.1) != play(at_right.0, at_right.1) {
        return Err(frames);
    }
    Ok(())
}

// Whether both machines agree in the frames that are confirmed at both.
fn print_agreement(rt: &HostRuntime, both: Both, left: &[u8], right: &[u8]) -> anyhow::Result<()> {
    let confirmed = both.left.peer.confirmed().min(both.right.peer.confirmed());
    match compare(left, right, confirmed) {
        Ok(()) => println!(rt; "same {confirmed}")?,
        Err(frame) => println!(rt; "different at {frame}")?,
    }
    Ok(())
}

fn run_one(rt: &HostRuntime, options: Options) -> anyhow::Result<()> {
    println!(rt;
        "seed {} window {} ticks {} loss {} twice {} delay {}",
        options.seed, options.window, options.ticks, options.loss, options.twice, options.delay
    )?;
    let moves = make_moves(rt.alloc(), options)?;
    let mut left = Memory::new(rt.alloc())?;
    let mut right = Memory::new(rt.alloc())?;
    let picture = vec![in rt.alloc(); 0u8; LENGTH]?;
    let both = match play_moves(
        rt.alloc(),
        options.window,
        &mut left.inputs,
        &mut left.states,
        &mut right.inputs,
        &mut right.states,
        &picture,
        &moves,
    ) {
        Ok(both) => both,
        Err(Unplayed::Refused(refused)) => bail!("radio: {refused}"),
        Err(Unplayed::NoMemory) => bail!("radio: no memory"),
    };
    print_side(rt, "left", both.left, &left.states)?;
    print_side(rt, "right", both.right, &right.states)?;
    print_agreement(rt, both, &left.inputs, &right.inputs)
}

// The rows of the command line.
fn rows(rt: &HostRuntime) -> anyhow::Result<Vec<Options>> {
    let mut words = Vec::new(rt.alloc());
    let all = env::args(rt).map_err(|e| anyhow!("radio: command line: {e}"))?;
    for word in all.skip(1) {
        words.push(word.parse::<u64>().context(USAGE)?)?;
    }
    let mut rows = Vec::new(rt.alloc());
    for row in words.chunks(NUMBERS) {
        rows.push(Options::try_from(row)?)?;
    }
    Ok(rows)
}

fn run(rt: &HostRuntime) -> anyhow::Result<()> {
    let rows = rows(rt)?;
    if rows.is_empty() {
        bail!(USAGE);
    }
    for row in &rows {
        run_one(rt, *row)?;
    }
    Ok(())
}

// Each program ends so; a library for these lines would be no shorter.
fn main(rt: HostRuntime) -> ExitCode {
    match run(&rt) {
        Ok(()) => ExitCode::SUCCESS,
        Err(e) => {
            let _ = eprintln!(rt; "{e}");
            ExitCode::FAILURE
        }
    }
}
