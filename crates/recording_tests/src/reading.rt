// Bytes as recordings, and what is shown of them.
use crate::writing::{ahead, fill, level};
use court::state::Score;
use game::seat::Seat;
use peer::memory::INPUTS;
use picture::LENGTH;
use recording::layout::length_of;
use recording::show::{Shown, Unshown, show};
use recording::write::write;
use recording::{Fault, Recording};
use std::test::Fail;

// Each fault in bytes that have no saved state.
#[test]
fn faults(rt: HostRuntime) {
    let told = |bytes: &[u8]| Recording::read(bytes).err();
    assert_eq!(rt; told(b""), Some(Fault::CutShort(0)));
    assert_eq!(rt; told(b"RE"), Some(Fault::CutShort(2)));
    assert_eq!(rt; told(b"RAC"), Some(Fault::NoMark(1)));
    assert_eq!(rt; told(b"REC"), Some(Fault::CutShort(3)));
    assert_eq!(rt; told(b"REC\x00"), Some(Fault::Window));
    assert_eq!(rt; told(b"REC\x3d"), Some(Fault::Window));
    assert_eq!(rt; told(b"REC\x3c\x00\x00\x00"), Some(Fault::CutShort(7)));
    assert_eq!(rt; told(b"REC\x3c\x41\x42\x0f\x00"), Some(Fault::TooMany));
    assert_eq!(rt;
        told(b"REC\x01\x02\x00\x00\x00\x11"),
        Some(Fault::CutShort(9))
    );
    assert_eq!(rt;
        told(b"REC\x01\x02\x00\x00\x00\x11\x22\x33"),
        Some(Fault::TooLong(10))
    );
    assert_eq!(rt; told(b"REC\x01\x02\x00\x00\x00\x11\x22"), None);
    assert_eq!(rt; (Fault::TooMany.number(), Fault::TooMany.place()), (6, 4));
    assert_eq!(rt;
        (Fault::NoMark(2).number(), Fault::NoMark(2).place()),
        (6, 2)
    );
}

// Frames before and behind a saved state, and the first byte of that which is wrong or not there.
#[test]
fn shows(rt: HostRuntime) -> Result<(), Fail> {
    let mut inputs = vec![in rt.alloc(); 0u8; INPUTS]?;
    fill(&rt, &mut inputs);
    let mut bytes = [0u8; 672];
    assert_eq!(rt;
        write(&ahead(Seat::Left, 600), &inputs, &mut bytes),
        Ok(672)
    );
    let mut picture = vec![in rt.alloc(); 7u8; LENGTH]?;
    let shown = Shown {
        frames: 600,
        score: Score { left: 0, right: 0 },
    };
    assert_eq!(rt; show(&bytes, 600, &mut picture), Ok(shown));
    assert_eq!(rt; show(&bytes, 599, &mut picture), Ok(shown));
    assert_eq!(rt; show(&bytes, 601, &mut picture), Err(Unshown::Beyond(600)));
    assert_eq!(rt; show(&bytes, 0, &mut [0; 19_199]), Err(Unshown::Picture));
    assert_eq!(rt;
        show(&bytes[0..640], 0, &mut picture),
        Err(Unshown::Recording(Fault::CutShort(640)))
    );
    bytes[610] = 1;
    assert_eq!(rt;
        show(&bytes, 0, &mut picture),
        Err(Unshown::Recording(Fault::WrongState(610)))
    );
    Ok(())
}

// What people are told of a fault.
#[test]
fn text(rt: HostRuntime) -> Result<(), Fail> {
    let text = format!(in rt.alloc(); "{}", Fault::WrongState(1_234))?;
    assert_eq!(rt; text.as_str(), "refused 6 at 1234");
    Ok(())
}

// Recordings of some lengths: each is taken, and shows its last frame and none behind it.
#[test]
fn lengths(rt: HostRuntime) -> Result<(), Fail> {
    let mut inputs = vec![in rt.alloc(); 0u8; INPUTS]?;
    fill(&rt, &mut inputs);
    let mut picture = vec![in rt.alloc(); 7u8; LENGTH]?;
    for (frames, length) in [
        (0, 8),
        (1, 9),
        (599, 607),
        (600, 672),
        (601, 673),
        (1_200, 1_336),
        (1_000_000, 1_106_632),
    ] {
        let peer = level(frames);
        assert_eq!(rt; length_of(&peer), length);
        let mut bytes = vec![in rt.alloc(); 0u8; length]?;
        assert_eq!(rt; write(&peer, &inputs, &mut bytes), Ok(length));
        let shown = show(&bytes, frames, &mut picture).map(|shown| shown.frames);
        assert_eq!(rt; shown, Ok(frames));
        let beyond = show(&bytes, frames.saturating_add(1), &mut picture);
        assert_eq!(rt; beyond, Err(Unshown::Beyond(frames)));
    }
    Ok(())
}

// One byte of a recording of 601 frames that is another: in the mark, the window, the count, a frame before the saved state, and the
// state. Where a fault is told was worked out by another implementation. The last frame is behind the state, so any byte is right there.
#[test]
fn damaged(rt: HostRuntime) -> Result<(), Fail> {
    let mut inputs = vec![in rt.alloc(); 0u8; INPUTS]?;
    fill(&rt, &mut inputs);
    let mut bytes = [0u8; 673];
    assert_eq!(rt; write(&level(601), &inputs, &mut bytes), Ok(673));
    for (at, byte, fault) in [
        (0, b'S', Some(Fault::NoMark(0))),
        (2, 0, Some(Fault::NoMark(2))),
        (3, 0, Some(Fault::Window)),
        (3, 61, Some(Fault::Window)),
        (4, 88, Some(Fault::WrongState(608))),
        (6, 16, Some(Fault::TooMany)),
        (108, 229, Some(Fault::WrongState(609))),
        (607, 70, Some(Fault::WrongState(626))),
        (608, 89, None),
        (609, 1, Some(Fault::WrongState(609))),
        (640, 1, Some(Fault::WrongState(640))),
        (672, 1, Some(Fault::WrongState(672))),
    ] {
        let mut other = bytes;
        assert!(rt; at < other.len());
        other[at] = byte;
        assert_eq!(rt; Recording::read(&other).err(), fault);
    }
    Ok(())
}
