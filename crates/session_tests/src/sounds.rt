// What a session hands out to be heard.
use crate::machine::Machine;
use game::seat::Seat;
use peer::Refusal;
use session::{Happening, Refused};
use sound::FRAME_BYTES;
use std::test::*;

// The ball meets the right end in frame 100. What is handed out then is a tone, and before that
// silence.
#[test]
fn end_is_heard(rt: HostRuntime) -> Result<(), Fail> {
    let mut machine = Machine::begin(rt.alloc(), Seat::Left, 60, 61 * 64)?;
    let mut came = [0; 70];
    came[0] = b'H';
    came[5] = 60;
    let (mut packets, mut sounds) = (Vec::new(rt.alloc()), Vec::new(rt.alloc()));
    machine.hear(Happening::Arrival(&came), &mut packets, &mut sounds)?;
    for _ in 0..100 {
        machine.hear(Happening::Tick(0), &mut packets, &mut sounds)?;
    }
    assert_eq!(rt; sounds.len(), 100 * FRAME_BYTES);
    // Its first sample is 8,192, low byte first.
    let heard = sounds.iter().position(|&byte| byte != 0);
    assert_eq!(rt; heard, Some(99 * FRAME_BYTES + 1));
    let mut sound = [9; FRAME_BYTES];
    machine.hand_out(&mut sound)?;
    assert!(rt; sounds.ends_with(&sound));
    Ok(())
}

// A lost tick, a refused one and a packet hand out nothing.
#[test]
fn each_frame_once(rt: HostRuntime) -> Result<(), Fail> {
    let mut machine = Machine::begin(rt.alloc(), Seat::Left, 1, 128)?;
    let (mut packets, mut sounds) = (Vec::new(rt.alloc()), Vec::new(rt.alloc()));
    let came = [b'H', 0, 0, 0, 0, 1, 1, 0, 0, 0, 8];
    let events = [
        Happening::Tick(4),
        Happening::Tick(5),
        Happening::Tick(16),
        Happening::Arrival(&came),
        Happening::Tick(6),
    ];
    for (event, frames) in events.into_iter().zip([1, 1, 1, 1, 2]) {
        machine.hear(event, &mut packets, &mut sounds)?;
        assert_eq!(rt; sounds.len(), frames * FRAME_BYTES);
    }
    Ok(())
}

// Short states are told before short memory for the sound, and neither changes anything.
#[test]
fn short_memory(rt: HostRuntime) -> Result<(), Fail> {
    let mut machine = Machine::begin(rt.alloc(), Seat::Left, 1, 128)?;
    let mut sound = [9; FRAME_BYTES - 1];
    let refused = machine.hand_out(&mut sound);
    assert_eq!(rt; refused, Err(Refused::Sound));
    assert_eq!(rt; (Refused::Sound.number(), Refused::Sound.place()), (5, 6));
    assert!(rt; sound.iter().all(|&byte| byte == 9));
    machine.states.truncate(127);
    let refused = machine.hand_out(&mut sound);
    assert_eq!(rt; refused, Err(Refused::Peer(Refusal::States)));
    Ok(())
}
