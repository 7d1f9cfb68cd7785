// Recordings of what a peer is sure of. The state was worked out by another implementation of the
// rules.
ghost use Rattle.std.specs.Prelude.{◌<◌};

use game::plain::MOST_FRAMES;
use game::saved::STATE_BYTES;
use game::seat::Seat;
use peer::Peer;
use peer::log::HALF;
use peer::memory::INPUTS;
use recording::layout::length_of;
use recording::write::{Unwritten, write};
use std::process::Abort;
use std::test::Fail;

// A state of the court after 600 frames of the inputs below.
const AFTER_600: [u8; STATE_BYTES] = [
    0, 29, 0, 0, 186, 4, 0, 0, 64, 2, 0, 0, 154, 254, 255, 255, 0, 8, 0, 0, 0, 52, 0, 0, 0, 142, 0,
    0, 0, 40, 0, 0, 0, 0, 0, 0, 0, 0, 0, 0, 0, 0, 0, 0, 0, 0, 0, 0, 0, 0, 0, 0, 0, 0, 0, 0, 0, 0,
    0, 0, 0, 0, 0, 0,
];

// Frames of which there are inputs; behind them all are 0.
const FILLED: usize = 700;

// Seat 0 goes through all inputs one by one, seat 1 seven frames each.
pub(crate) fn fill(rt: &impl Abort, inputs: &mut [u8]) {
    assert!(rt; inputs.len() >= INPUTS);
    // By places: over chunks of both halves the check left the bounds of the second open.
    for k in 0..FILLED {
        // The check proves that the casts lose nothing: `try_from` would bring errors that cannot
        // come.
        inputs[k] = (k % 16) as u8;
        inputs[HALF + k] = (k / 7 % 16) as u8;
    }
}

// A peer that has one frame more than the other's.
pub(crate) fn ahead(seat: Seat, other: usize) -> Peer
    requires { other < 1000000 }
{
    Peer {
        seat,
        window: 5,
        own: other + 1,
        other,
        acked: 0,
    }
}

// A peer that has all inputs of so many frames, of both seats.
pub(crate) fn level(frames: usize) -> Peer {
    let made = frames.min(MOST_FRAMES);
    Peer {
        seat: Seat::Left,
        window: 5,
        own: made,
        other: made,
        acked: 0,
    }
}

// Both seats write the same frames the other way round, and what lies behind them stays.
#[test]
fn frames(rt: HostRuntime) -> Result<(), Fail> {
    let mut inputs = vec![in rt.alloc(); 0u8; INPUTS]?;
    fill(&rt, &mut inputs);
    let left = ahead(Seat::Left, 8);
    let right = ahead(Seat::Right, 8);
    let mut out = [9u8; 17];
    assert_eq!(rt; length_of(&left), 16);
    assert_eq!(rt; write(&left, &inputs, &mut out), Ok(16));
    assert_eq!(rt;
        out,
        *b"REC\x05\x08\x00\x00\x00\x00\x01\x02\x03\x04\x05\x06\x17\x09"
    );
    assert_eq!(rt; write(&right, &inputs, &mut out), Ok(16));
    assert_eq!(rt;
        out,
        *b"REC\x05\x08\x00\x00\x00\x00\x10\x20\x30\x40\x50\x60\x71\x09"
    );
    Ok(())
}

// The state after frame 600 lies behind the frames.
#[test]
fn state(rt: HostRuntime) -> Result<(), Fail> {
    let mut inputs = vec![in rt.alloc(); 0u8; INPUTS]?;
    fill(&rt, &mut inputs);
    let mut out = [9u8; 673];
    assert_eq!(rt; write(&ahead(Seat::Left, 600), &inputs, &mut out), Ok(672));
    assert_eq!(rt; &out[608..672], AFTER_600.as_slice());
    assert_eq!(rt; out[672], 9);
    Ok(())
}

#[test]
fn refused(rt: HostRuntime) -> Result<(), Fail> {
    let inputs = vec![in rt.alloc(); 0u8; INPUTS]?;
    let mut out = [9u8; 671];
    let short = inputs.get(0..1_999_999).unwrap_or(&[]);
    assert_eq!(rt;
        write(&ahead(Seat::Left, 600), short, &mut out),
        Err(Unwritten::Inputs)
    );
    assert_eq!(rt;
        write(&ahead(Seat::Left, 600), &inputs, &mut out),
        Err(Unwritten::NoRoom)
    );
    assert_eq!(rt; out, [9u8; 671]);
    Ok(())
}

// The tone that sounds in frame 600 is in the state after it: the left paddle went up, the right
// one down, and one of them met the ball five frames before. It was worked out by another
// implementation of the rules.
#[test]
fn tone_is_saved(rt: HostRuntime) -> Result<(), Fail> {
    let mut inputs = vec![in rt.alloc(); 4u8; INPUTS]?;
    inputs[HALF..].fill(8);
    let mut out = [9u8; 672];
    assert_eq!(rt; write(&level(600), &inputs, &mut out), Ok(672));
    assert_eq!(rt; &out[640..646], [1, 1, 0, 1, 5, 0].as_slice());
    Ok(())
}
