// The peer that goes back beside the naive one: after each of a row of random events both have said, have and show the same.
use crate::machine::Machine;
use crate::naive::{Naive, Told, taken_for};
use crate::random::{bytes_for, next, pick};
use crate::trail::Trail;
use court_game::sounding::CourtGame;
use game::saved::{STATE_BYTES, SavedGame};
use game::seat::Seat;
use peer::memory::MOST_STATES;
use rollback::Outcome;
use std::alloc::Global;
use std::process::Abort;
use std::test::Fail;

impl From<Outcome> for Told {
    fn from(outcome: Outcome) -> Told {
        match outcome {
            Outcome::Taken(frames) => Told::Taken(frames),
            Outcome::Lost => Told::Lost,
            Outcome::Refused(_) => Told::Refused,
        }
    }
}

// Two states are the same where their bytes are: a game whose states can be saved need not be one that can be compared.
fn same_state<G: SavedGame>(a: G, b: G) -> bool {
    let mut x = [0; STATE_BYTES];
    let mut y = [0; STATE_BYTES];
    a.save(&mut x);
    b.save(&mut y);
    x == y
}

// One random event at both; what it came to.
fn step<G: SavedGame>(
    rt: &impl Abort,
    heap: Global,
    machine: &mut Machine,
    naive: &mut Naive,
    seed: u32,
) -> Result<Told, Fail> {
    if pick(seed, 2) == 0 {
        let input = pick(next(seed), 17);
        let said = Told::from(machine.tick::<G>(input));
        assert_eq!(rt; said, naive.tick(input)?);
        return Ok(said);
    }
    let last = taken_for(&naive.other, naive.other.len());
    let bytes = bytes_for(heap, naive.own.len(), naive.other.len(), last, next(seed))?;
    let said = Told::from(machine.receive::<G>(&bytes));
    assert_eq!(rt; said, naive.receive(&bytes)?);
    Ok(said)
}

// Both have the same and show the same.
fn check_same<G: SavedGame>(rt: &impl Abort, machine: &Machine, naive: &Naive) -> Result<(), Fail> {
    let p = machine.p;
    assert_eq!(rt;
        (p.own, p.other, p.acked),
        (naive.own.len(), naive.other.len(), naive.acked)
    );
    assert!(rt; same_state(machine.shown::<G>()?, naive.shows::<G>()));
    Ok(())
}

fn beside<G: SavedGame>(
    rt: &impl Abort,
    heap: Global,
    seat: Seat,
    window: usize,
    seed: u32,
) -> Result<(), Fail> {
    let mut machine = Machine::begin::<G>(heap, seat, window, MOST_STATES)?;
    let mut naive = Naive::new(heap, seat, window);
    let mut s = seed;
    let mut played = 0usize;
    let mut lost = 0usize;
    let mut refused = 0usize;
    for _ in 0..400u32 {
        s = next(s);
        match step::<G>(rt, heap, &mut machine, &mut naive, s)? {
            Told::Taken(frames) => played = played.saturating_add(frames),
            Told::Lost => lost = lost.saturating_add(1),
            Told::Refused => refused = refused.saturating_add(1),
        }
        check_same::<G>(rt, &machine, &naive)?;
    }
    let own = machine.p.own;
    assert!(rt; own > 50 && refused > 20, "the game goes on");
    assert!(rt; played > own + 5, "it went back");
    assert!(rt; lost > 0, "the window is reached");
    Ok(())
}

#[test]
fn court_left(rt: HostRuntime) -> Result<(), Fail> {
    beside::<CourtGame>(&rt, rt.alloc(), Seat::Left, 3, 1)?;
    beside::<CourtGame>(&rt, rt.alloc(), Seat::Left, 60, 2)
}

#[test]
fn court_right(rt: HostRuntime) -> Result<(), Fail> {
    beside::<CourtGame>(&rt, rt.alloc(), Seat::Right, 1, 3)?;
    beside::<CourtGame>(&rt, rt.alloc(), Seat::Right, 9, 4)
}

#[test]
fn trail_left(rt: HostRuntime) -> Result<(), Fail> {
    beside::<Trail>(&rt, rt.alloc(), Seat::Left, 1, 5)?;
    beside::<Trail>(&rt, rt.alloc(), Seat::Left, 9, 6)
}

#[test]
fn trail_right(rt: HostRuntime) -> Result<(), Fail> {
    beside::<Trail>(&rt, rt.alloc(), Seat::Right, 3, 7)?;
    beside::<Trail>(&rt, rt.alloc(), Seat::Right, 60, 8)
}
