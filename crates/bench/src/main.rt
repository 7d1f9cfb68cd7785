// Work to be timed from outside: what the same takes in Rust is compared with it (bench/run).
//
//     bench pictures COUNT     plays frames and draws the picture after each; prints the sum of one byte of every picture
//     bench packets COUNT      reads packets of 0 to 120 inputs; prints the sum of some of what they say
//     bench rollback TICKS TIMES FILE
//                              plays games of two peers over a lossy radio, with a file of frames as inputs; prints where both stand
//                              after the last, how many events there were and how many frames were played for them
#![tactic(auto)]

mod games;

use crate::games::{Machine, Random, play_game};
use anyhow::{anyhow, bail};
use court::{Court, Input};
use game::seat::Seat;
use packet::{MOST_INPUTS, MOST_LENGTH, Packet};
use picture::{LENGTH, draw};
use std::process::ExitCode;
use std::{env, fs};

const USAGE: &str = "usage: bench pictures|packets COUNT | rollback TICKS TIMES FILE";

// Numbers of the rules and of a packet's bytes stand here once more: `court` and `packet` keep theirs to themselves.

// A game is over where a seat has so many points.
const LAST_POINT: u8 = 9;

// From the byte of one picture that counts to that of the next.
const STRIDE: usize = 7919;

// Where a packet has its number of inputs, how many of the reader's it has, and its inputs.
const COUNT_AT: usize = 5;

const ACK_AT: usize = 6;

const INPUTS_AT: usize = 10;

// As many inputs as the reader has made.
const MADE: u32 = 1_000_000;

// Casts here lose nothing, which the check proves, and there is no `From` for them.
fn input(n: u32) -> Input {
    Input((n % 16) as u8)
}

// The next frame, with some input for each seat, or a new game where one is over.
fn next(court: Court, frame: u32) -> Court {
    let score = court.state.score;
    if score.left == LAST_POINT || score.right == LAST_POINT {
        Court::new()
    } else {
        court.frame(input(frame / 7), input(frame / 11)).court
    }
}

fn pictures(count: u32, picture: &mut [u8]) -> u64 {
    let mut court = Court::new();
    let mut sum = 0u64;
    for frame in 0..count {
        court = next(court, frame);
        let _ = draw(court, picture);
        let at = frame as usize * STRIDE % LENGTH;
        let byte = picture.get(at).copied().unwrap_or(0);
        sum = sum.wrapping_add(u64::from(byte));
    }
    sum
}

// Packet k: its number of inputs goes from 0 to 120 and begins anew.
fn packets(count: u32, buffer: &mut [u8; MOST_LENGTH]) -> u64 {
    let mut sum = 0u64;
    for k in 0..count {
        let inputs = (k % (u32::from(MOST_INPUTS) + 1)) as u8;
        buffer[COUNT_AT] = inputs;
        buffer[ACK_AT] = k.to_le_bytes()[0];
        if let Ok(packet) = Packet::read(&buffer[..INPUTS_AT + usize::from(inputs)], MADE) {
            sum = sum
                .wrapping_add(u64::from(packet.first))
                .wrapping_add(u64::from(packet.ack));
            let last = packet.inputs.last().copied().unwrap_or(0);
            sum = sum.wrapping_add(u64::from(last));
        }
    }
    sum
}

fn print_sum(rt: &HostRuntime, sum: u64) -> anyhow::Result<()> {
    println!(rt; "{sum}")?;
    Ok(())
}

fn run_pictures(rt: &HostRuntime, count: u32) -> anyhow::Result<()> {
    let mut picture = vec![in rt.alloc(); 0u8; LENGTH]?;
    print_sum(rt, pictures(count, &mut picture))
}

// Some packet; the upper halves of its two numbers of four bytes are 0.
fn run_packets(rt: &HostRuntime, count: u32) -> anyhow::Result<()> {
    let mut buffer = [7u8; MOST_LENGTH];
    buffer[0] = b'H';
    buffer[COUNT_AT - 2..COUNT_AT].fill(0);
    buffer[INPUTS_AT - 2..INPUTS_AT].fill(0);
    print_sum(rt, packets(count, &mut buffer))
}

// Work of so many turns. The count is read before the word is looked at.
fn run_counted(rt: &HostRuntime, what: &str, count: u32) -> anyhow::Result<()> {
    match what {
        "pictures" => run_pictures(rt, count),
        "packets" => run_packets(rt, count),
        _ => bail!(USAGE),
    }
}

fn run_rollback(rt: &HostRuntime, ticks: usize, times: u32, frames: &[u8]) -> anyhow::Result<()> {
    let mut left = Machine::new(rt.alloc(), Seat::Left)?;
    let mut right = Machine::new(rt.alloc(), Seat::Right)?;
    let mut random = Random(1);
    for _ in 0..times {
        play_game(&mut left, &mut right, ticks, frames, &mut random)?;
    }
    println!(rt; "{}", left.status()?)?;
    println!(rt; "{}", right.status()?)?;
    let events = left.events.wrapping_add(right.events);
    let played = left.frames.wrapping_add(right.frames);
    println!(rt; "events {events} frames {played}")?;
    Ok(())
}

fn read_file(rt: &HostRuntime, path: &str) -> anyhow::Result<Vec<u8>> {
    fs::read(rt, path).map_err(|e| anyhow!("bench: {path}: {e}"))
}

fn run(rt: &HostRuntime) -> anyhow::Result<()> {
    let mut words = Vec::new(rt.alloc());
    for word in env::args(rt)?.skip(1) {
        words.push(word)?;
    }
    let [what, rest @ ..] = words.as_slice() else {
        bail!(USAGE);
    };
    match (what.as_str(), rest) {
        ("rollback", [ticks, times, file]) => {
            let frames = read_file(rt, file)?;
            run_rollback(rt, ticks.parse()?, times.parse()?, &frames)
        }
        (_, [count]) => run_counted(rt, what, count.parse()?),
        _ => bail!(USAGE),
    }
}

// Each program ends so; a library for these lines would be no shorter.
fn main(rt: HostRuntime) -> ExitCode {
    match run(&rt) {
        Ok(()) => ExitCode::SUCCESS,
        Err(e) => {
            let _ = eprintln!(rt; "{e}");
            ExitCode::FAILURE
        }
    }
}
