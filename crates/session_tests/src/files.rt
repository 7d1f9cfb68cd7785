// Files of events for tests, and tests of reading them.
use packet::Fault;
use peer::Refusal;
use session::file::{Events, Placed, arrival_head, check_events, event_at};
use session::{Happening, Refused};
use std::alloc::{AllocGlobal, Global};
use std::process::Abort;
use std::test::*;

pub(crate) fn tick(file: &mut Vec<u8>, input: u8) -> Result<(), Fail> {
    file.extend_from_slice(&[0, input])?;
    Ok(())
}

pub(crate) fn ticks(file: &mut Vec<u8>, inputs: &[u8]) -> Result<(), Fail> {
    for input in inputs {
        tick(file, *input)?;
    }
    Ok(())
}

// Bytes that come, at most 65,535.
pub(crate) fn arrival(file: &mut Vec<u8>, bytes: &[u8]) -> Result<(), Fail> {
    file.extend_from_slice(&arrival_head(u16::try_from(bytes.len())?))?;
    file.extend_from_slice(bytes)?;
    Ok(())
}

// A packet's bytes, by its first frame, its acknowledgement and at most 255 inputs, right or wrong.
pub(crate) fn packet(heap: Global, first: u32, ack: u8, inputs: &[u8]) -> Result<Vec<u8>, Fail> {
    let mut bytes = Vec::new(heap);
    bytes.push(b'H')?;
    bytes.extend_from_slice(&first.to_le_bytes())?;
    bytes.push(u8::try_from(inputs.len())?)?;
    bytes.extend_from_slice(&[ack, 0, 0, 0])?;
    bytes.extend_from_slice(inputs)?;
    Ok(bytes)
}

fn tick_before(input: u8, next: usize) -> Result<Placed<'static>, Refused> {
    Ok(Placed {
        event: Happening::Tick(input),
        next,
    })
}

fn arrival_before(bytes: &[u8], next: usize) -> Result<Placed<'_>, Refused> {
    Ok(Placed {
        event: Happening::Arrival(bytes),
        next,
    })
}

#[test]
fn events_by_their_places(rt: HostRuntime) -> Result<(), Fail> {
    let file = [0, 200, 1, 3, 0, 7, 0, 9, 0, 4, 1, 0, 0];
    assert_eq!(rt; event_at(&file, 0), tick_before(200, 2));
    assert_eq!(rt; event_at(&file, 2), arrival_before(&[7, 0, 9], 8));
    assert_eq!(rt; event_at(&file, 8), tick_before(4, 10));
    assert_eq!(rt; event_at(&file, 10), arrival_before(&[], 13));
    assert_eq!(rt; event_at(&file, 1), Err(Refused::Event(1)));
    assert_eq!(rt; event_at(&file, 13), Err(Refused::Event(13)));
    assert_eq!(rt; event_at(&file, 99), Err(Refused::Event(99)));
    assert_eq!(rt; check_events(&file), Ok(4));
    assert_eq!(rt; check_events(&[]), Ok(0));
    Ok(())
}

// One after the other, and none behind what is no event.
#[test]
fn events_in_a_row(rt: HostRuntime) -> Result<(), Fail> {
    let mut events = Events::of(&[0, 200, 1, 3, 0, 7, 0, 9, 2, 0, 4]);
    assert_eq!(rt; events.next(), Some(Ok(Happening::Tick(200))));
    assert_eq!(rt; events.next(), Some(Ok(Happening::Arrival(&[7, 0, 9]))));
    assert_eq!(rt; events.next(), Some(Err(Refused::Event(8))));
    assert_eq!(rt; events.next(), None);
    assert_eq!(rt; Events::of(&[]).next(), None);
    Ok(())
}

// Of no kind, or cut short: the first byte of the event.
#[test]
fn no_events(rt: HostRuntime) -> Result<(), Fail> {
    assert_eq!(rt; check_events(&[0, 200, 2, 0]), Err(Refused::Event(2)));
    assert_eq!(rt; check_events(&[0, 1, 0]), Err(Refused::Event(2)));
    assert_eq!(rt; check_events(&[0, 1, 1]), Err(Refused::Event(2)));
    assert_eq!(rt; check_events(&[0, 1, 1, 0]), Err(Refused::Event(2)));
    assert_eq!(rt; check_events(&[0, 1, 1, 2, 0, 5]), Err(Refused::Event(2)));
    assert_eq!(rt; check_events(&[0, 1, 1, 0, 1, 5]), Err(Refused::Event(2)));
    assert_eq!(rt; check_events(&[255]), Err(Refused::Event(0)));
    assert_eq!(rt;
        (Refused::Event(7).number(), Refused::Event(7).place()),
        (4, 7)
    );
    Ok(())
}

// What people read of a refusal: its number and its place.
fn check_text(rt: &(impl Abort + AllocGlobal), refused: Refused, text: &str) -> Result<(), Fail> {
    assert_eq!(rt; format!(in rt.alloc(); "{refused}")?.as_str(), text);
    Ok(())
}

#[test]
fn refusals_as_text(rt: HostRuntime) -> Result<(), Fail> {
    check_text(&rt, Refused::Event(1_234_567), "refused 4 at 1234567")?;
    check_text(&rt, Refused::Picture, "refused 5 at 3")?;
    check_text(&rt, Refused::from(Refusal::Window), "refused 5 at 0")?;
    check_text(
        &rt,
        Refused::from(Refusal::Packet(Fault::Unmade)),
        "refused 3 at 6",
    )
}
