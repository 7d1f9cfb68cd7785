// What single calls answer, and the packets that they write.
use crate::machine::Machine;
use court::state::Score;
use game::seat::Seat;
use peer::Refusal;
use rollback::Outcome;
use session::{Answer, Happening, Refused, Status};
use std::test::*;

fn answer(outcome: Outcome, sent: Option<usize>) -> Answer {
    Answer { outcome, sent }
}

// Where a peer stands after three frames, in which nobody scores.
fn after_three(confirmed: usize) -> Status {
    Status {
        frames: 3,
        confirmed,
        score: Score { left: 0, right: 0 },
    }
}

// Window 3: ticks, the fourth lost; each writes a packet with all inputs from the most acknowledged on. A refused one writes none.
#[test]
fn packets_are_written(rt: HostRuntime) -> Result<(), Fail> {
    let mut machine = Machine::begin(rt.alloc(), Seat::Left, 3, 256)?;
    for length in 11..14 {
        let played = answer(Outcome::Taken(1), Some(length));
        assert_eq!(rt; machine.step(&[0, 1])?, played);
    }
    let three = [b'H', 0, 0, 0, 0, 3, 0, 0, 0, 0, 1, 1, 1, 99];
    assert_eq!(rt; machine.packet.first_chunk(), Some(&three));
    let lost = answer(Outcome::Lost, Some(13));
    assert_eq!(rt; machine.step(&[0, 2])?, lost);
    assert_eq!(rt; machine.status(), Ok(after_three(0)));
    let came = [1, 13, 0, b'H', 0, 0, 0, 0, 3, 2, 0, 0, 0, 8, 8, 8];
    let again = answer(Outcome::Taken(3), None);
    assert_eq!(rt; machine.step(&came)?, again);
    assert_eq!(rt; machine.status(), Ok(after_three(3)));
    let refused = answer(Outcome::Refused(Refusal::Input), None);
    assert_eq!(rt; machine.step(&[0, 16])?, refused);
    assert_eq!(rt; machine.packet.first_chunk(), Some(&three));
    let next = answer(Outcome::Taken(1), Some(12));
    assert_eq!(rt; machine.step(&[0, 2])?, next);
    let two = [b'H', 2, 0, 0, 0, 2, 3, 0, 0, 0, 1, 2, 1, 99];
    assert_eq!(rt; machine.packet.first_chunk(), Some(&two));
    Ok(())
}

// The packets of all ticks behind one another, as events of the other's file: a lost tick sends one too, and what comes or is refused none.
#[test]
fn packets_are_kept(rt: HostRuntime) -> Result<(), Fail> {
    let mut machine = Machine::begin(rt.alloc(), Seat::Left, 1, 128)?;
    let came = [b'H', 0, 0, 0, 0, 1, 1, 0, 0, 0, 8];
    let events = [
        Happening::Tick(4),
        Happening::Tick(5),
        Happening::Tick(16),
        Happening::Arrival(&came),
        Happening::Tick(6),
    ];
    let mut packets = Vec::new(rt.alloc());
    packets.push(77)?;
    for event in events {
        machine.keep(event, &mut packets)?;
    }
    let first = [1, 11, 0, b'H', 0, 0, 0, 0, 1, 0, 0, 0, 0, 4];
    let last = [1, 11, 0, b'H', 1, 0, 0, 0, 1, 1, 0, 0, 0, 6];
    let mut all = Vec::new(rt.alloc());
    all.push(77)?;
    all.extend_from_slice(&first)?;
    all.extend_from_slice(&first)?;
    all.extend_from_slice(&last)?;
    assert_eq!(rt; packets.as_slice(), all.as_slice());
    Ok(())
}

// Memory that is too short at a later call is refused there too.
#[test]
fn short_memory(rt: HostRuntime) -> Result<(), Fail> {
    let mut machine = Machine::begin(rt.alloc(), Seat::Right, 1, 128)?;
    machine.inputs.truncate(1_999_999);
    let short = Refusal::Inputs;
    let refused = answer(Outcome::Refused(short), None);
    assert_eq!(rt; machine.step(&[0, 1])?, refused);
    assert_eq!(rt; (short.number(), short.place()), (5, 1));
    assert!(rt; machine.status().is_ok());
    machine.states.truncate(127);
    let few = Refusal::States;
    assert_eq!(rt; (few.number(), few.place()), (5, 2));
    assert_eq!(rt; machine.status(), Err(Refused::Peer(few)));
    Ok(())
}

// What people read of where a peer stands.
#[test]
fn status_as_text(rt: HostRuntime) -> Result<(), Fail> {
    let status = Status {
        frames: 1_234,
        confirmed: 1_180,
        score: Score { left: 3, right: 9 },
    };
    let text = format!(in rt.alloc(); "{status}")?;
    assert_eq!(rt; text.as_str(), "beat 1234 sure 1180 points 3 9");
    Ok(())
}
