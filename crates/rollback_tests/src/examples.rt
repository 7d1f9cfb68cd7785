// Examples over the court.
use crate::machine::Machine;
use court_game::plain::play;
use court_game::sounding::CourtGame;
use game::seat::Seat;
use packet::Fault;
use peer::Refusal;
use peer::log::HALF;
use peer::memory::{INPUTS, MOST_STATES};
use rollback::Outcome;
use rollback::events::begin;
use std::process::Abort;
use std::test::Fail;

// A packet's bytes: its first frame and its acknowledgement are below 256 here. `peer_tests` has the same function: a crate for these two
// lines alone is no plainer.
fn packet(first: u8, ack: u8, inputs: [u8; 3]) -> [u8; 13] {
    let [a, b, c] = inputs;
    [b'H', first, 0, 0, 0, 3, ack, 0, 0, 0, a, b, c]
}

// What is shown is the plain game with these inputs.
fn check_shown(rt: &impl Abort, machine: &Machine, left: &[u8], right: &[u8]) -> Result<(), Fail> {
    let held = machine.shown::<CourtGame>()?;
    assert_eq!(rt; held.court, play(left, right));
    Ok(())
}

// So many ticks with one input, each of which plays a frame.
fn ticks(rt: &impl Abort, machine: &mut Machine, input: u8, count: u8) {
    for _ in 0..count {
        assert_eq!(rt; machine.tick::<CourtGame>(input), Outcome::Taken(1));
    }
}

// Seat 0, window 3: three ticks are taken and the fourth is lost; then the other's inputs come, none predicted right.
#[test]
fn goes_back(rt: HostRuntime) -> Result<(), Fail> {
    let mut machine = Machine::begin::<CourtGame>(rt.alloc(), Seat::Left, 3, 256)?;
    ticks(&rt, &mut machine, 1, 3);
    assert_eq!(rt; machine.tick::<CourtGame>(1), Outcome::Lost);
    check_shown(&rt, &machine, &[1; 3], &[0; 3])?;
    let came = packet(0, 0, [8, 8, 8]);
    assert_eq!(rt; machine.receive::<CourtGame>(&came), Outcome::Taken(3));
    let p = machine.p;
    assert_eq!(rt; (p.own, p.other, p.acked), (3, 3, 0));
    check_shown(&rt, &machine, &[1; 3], &[8; 3])?;
    assert_eq!(rt;
        machine.receive::<CourtGame>(&came),
        Outcome::Taken(0),
        "the same again plays nothing"
    );
    Ok(())
}

// Only the frames from the first wrong one on are played again.
#[test]
fn plays_what_was_wrong(rt: HostRuntime) -> Result<(), Fail> {
    let mut machine = Machine::begin::<CourtGame>(rt.alloc(), Seat::Left, 9, 640)?;
    ticks(&rt, &mut machine, 4, 5);
    let came = packet(0, 0, [0, 0, 8]);
    assert_eq!(rt; machine.receive::<CourtGame>(&came), Outcome::Taken(3));
    check_shown(&rt, &machine, &[4; 5], &[0, 0, 8, 8, 8])?;
    let right = packet(3, 0, [8, 8, 8]);
    assert_eq!(rt; machine.receive::<CourtGame>(&right), Outcome::Taken(0));
    check_shown(&rt, &machine, &[4; 5], &[0, 0, 8, 8, 8])
}

// Seat 1 has its own inputs on the right, and predicts the last input that came.
#[test]
fn other_seat(rt: HostRuntime) -> Result<(), Fail> {
    let mut machine = Machine::begin::<CourtGame>(rt.alloc(), Seat::Right, 60, MOST_STATES)?;
    let came = packet(0, 0, [1, 2, 4]);
    assert_eq!(rt; machine.receive::<CourtGame>(&came), Outcome::Taken(0));
    ticks(&rt, &mut machine, 8, 5);
    check_shown(&rt, &machine, &[1, 2, 4, 4, 4], &[8; 5])
}

// A gap, an overlap, a packet again, and one that contradicts what came before.
#[test]
fn joins(rt: HostRuntime) -> Result<(), Fail> {
    let mut machine = Machine::begin::<CourtGame>(rt.alloc(), Seat::Left, 9, 640)?;
    machine.receive::<CourtGame>(&packet(1, 0, [1, 2, 3]));
    assert_eq!(rt; machine.p.other, 0, "a gap before frame 1");
    machine.receive::<CourtGame>(&packet(0, 0, [1, 2, 3]));
    machine.receive::<CourtGame>(&packet(2, 0, [9, 4, 5]));
    machine.receive::<CourtGame>(&packet(0, 0, [6, 6, 6]));
    assert_eq!(rt; machine.p.other, 5);
    ticks(&rt, &mut machine, 0, 5);
    check_shown(&rt, &machine, &[0; 5], &[1, 2, 3, 4, 5])
}

// Refusals, each with nothing changed.
#[test]
fn refused(rt: HostRuntime) -> Result<(), Fail> {
    let mut machine = Machine::begin::<CourtGame>(rt.alloc(), Seat::Left, 1, 128)?;
    assert_eq!(rt;
        machine.tick::<CourtGame>(16),
        Outcome::Refused(Refusal::Input)
    );
    let unmade = packet(0, 1, [1, 2, 3]);
    assert_eq!(rt;
        machine.receive::<CourtGame>(&unmade),
        Outcome::Refused(Refusal::Packet(Fault::Unmade))
    );
    let _ = machine.states.pop();
    assert_eq!(rt;
        machine.tick::<CourtGame>(1),
        Outcome::Refused(Refusal::States)
    );
    let p = machine.p;
    assert_eq!(rt; (p.own, p.other, p.acked), (0, 0, 0));
    let inputs = &machine.inputs;
    assert_eq!(rt; inputs.len(), INPUTS);
    assert_eq!(rt; (inputs[0], inputs[HALF]), (7, 7));
    Ok(())
}

// The window of a peer that begins; or the number and the place of its refusal.
fn told(window: usize, inputs: &[u8], states: &mut [u8]) -> Result<usize, (u8, usize)> {
    let p = begin::<CourtGame>(Seat::Left, window, inputs, states);
    p.map(|p| p.window).map_err(|f| (f.number(), f.place()))
}

#[test]
fn begins(rt: HostRuntime) -> Result<(), Fail> {
    let inputs = vec![in rt.alloc(); 0u8; INPUTS]?;
    let short = vec![in rt.alloc(); 0u8; 1_999_999]?;
    assert_eq!(rt; told(0, &inputs, &mut []), Err((5, 0)));
    assert_eq!(rt; told(61, &[], &mut []), Err((5, 0)));
    assert_eq!(rt; told(60, &short, &mut []), Err((5, 1)));
    assert_eq!(rt; told(60, &inputs, &mut [0; 3903]), Err((5, 2)));
    assert_eq!(rt; told(60, &inputs, &mut [0; 3904]), Ok(60));
    assert_eq!(rt; told(1, &inputs, &mut [0; 128]), Ok(1));
    Ok(())
}
