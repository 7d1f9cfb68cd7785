// Rows of moves at two machines: what the radio loses, doubles, delays and exchanges changes nothing in the end.
use court_game::plain::play;
use exchange::moves::{Act, Move};
use exchange::run::{Both, Played, Unplayed, play_moves};
use exchange::tally::Tally;
use game::seat::Seat;
use peer::Refusal;
use peer::log::HALF;
use peer::memory::{INPUTS, MOST_STATES};
use picture::LENGTH;
use session::Refused;
use session::calls::draw;
use std::alloc::AllocGlobal;
use std::process::Abort;
use std::test::Fail;

// One machine's memory. `radio` and `play` have such a struct too: a library of two `vec!`s, with its contract, edit and test, would
// be longer than all three.
#[derive(Drop)]
struct Memory {
    inputs: Vec<u8>,
    states: Vec<u8>,
}

fn lend(rt: &impl AllocGlobal, states: usize) -> Result<Memory, Fail> {
    Ok(Memory {
        inputs: vec![in rt.alloc(); 7u8; INPUTS]?,
        states: vec![in rt.alloc(); 9u8; states]?,
    })
}

fn tick(seat: Seat, input: u8) -> Move {
    let act = Act::Tick(input);
    Move { seat, act }
}

fn deliver(seat: Seat, number: usize) -> Move {
    let act = Act::Deliver(number);
    Move { seat, act }
}

fn play_row(
    rt: &impl AllocGlobal,
    window: usize,
    left: &mut Memory,
    right: &mut Memory,
    row: &[Move],
) -> Result<Both, Unplayed> {
    let picture = vec![in rt.alloc(); 0u8; LENGTH]?;
    play_moves(
        rt.alloc(),
        window,
        &mut left.inputs,
        &mut left.states,
        &mut right.inputs,
        &mut right.states,
        &picture,
        row,
    )
}

// A machine has these inputs, its own and the other's, and shows the plain game of them.
fn check_machine(
    rt: &(impl Abort + AllocGlobal),
    seat: Seat,
    played: Played,
    memory: &Memory,
    own: &[u8],
    other: &[u8],
) -> Result<(), Fail> {
    let inputs = &memory.inputs;
    assert_eq!(rt; played.peer.own, own.len());
    assert_eq!(rt; played.peer.other, other.len());
    assert!(rt; inputs.starts_with(own));
    assert!(rt; inputs.get(HALF..).unwrap_or(&[]).starts_with(other));
    let (left, right) = seat.in_order(own, other);
    let mut shown = vec![in rt.alloc(); 0u8; LENGTH]?;
    let mut plain = vec![in rt.alloc(); 0u8; LENGTH]?;
    assert!(rt; draw(&played.peer, &memory.states, &mut shown).is_ok());
    assert!(rt; picture::draw(play(left, right), &mut plain).is_ok());
    assert_eq!(rt; shown, plain);
    Ok(())
}

// Both machines come to the plain game of these inputs.
fn check_row(
    rt: &(impl Abort + AllocGlobal),
    window: usize,
    row: &[Move],
    left: &[u8],
    right: &[u8],
) -> Result<(Tally, Tally), Fail> {
    let mut at_left = lend(rt, MOST_STATES)?;
    let mut at_right = lend(rt, MOST_STATES)?;
    let both = play_row(rt, window, &mut at_left, &mut at_right, row)?;
    check_machine(rt, Seat::Left, both.left, &at_left, left, right)?;
    check_machine(rt, Seat::Right, both.right, &at_right, right, left)?;
    Ok((both.left.tally, both.right.tally))
}

// The first packets are lost, one comes twice, one after a later one, and of some numbers there is none.
#[test]
fn a_bad_radio(rt: HostRuntime) -> Result<(), Fail> {
    let row = [
        tick(Seat::Left, 5),
        tick(Seat::Right, 10),
        tick(Seat::Left, 5),
        deliver(Seat::Left, 1),
        tick(Seat::Right, 6),
        tick(Seat::Left, 1),
        tick(Seat::Right, 9),
        deliver(Seat::Right, 2),
        deliver(Seat::Right, 1),
        deliver(Seat::Right, 2),
        deliver(Seat::Right, 99),
        tick(Seat::Left, 8),
        tick(Seat::Right, 0),
        deliver(Seat::Left, 2),
        deliver(Seat::Left, 3),
        deliver(Seat::Right, 3),
    ];
    check_row(&rt, 5, &row, &[5, 5, 1, 8], &[10, 6, 9, 0])?;
    Ok(())
}

// Window 1: the second tick is lost, the third is refused, and a packet of which nothing was predicted right plays its frame again.
#[test]
fn tallies(rt: HostRuntime) -> Result<(), Fail> {
    let row = [
        tick(Seat::Left, 1),
        tick(Seat::Left, 2),
        tick(Seat::Left, 16),
        tick(Seat::Right, 8),
        deliver(Seat::Left, 0),
        deliver(Seat::Right, 0),
    ];
    let (left, right) = check_row(&rt, 1, &row, &[1], &[8])?;
    let at_left = Tally {
        lost: 1,
        refused: 1,
        played: 2,
        again: 1,
    };
    let at_right = Tally {
        lost: 0,
        refused: 0,
        played: 2,
        again: 1,
    };
    assert_eq!(rt; left, at_left);
    assert_eq!(rt; right, at_right);
    Ok(())
}

// A row of no moves, and sessions that do not begin: the window of none or of too many, and too few states at the right.
#[test]
fn beginnings(rt: HostRuntime) -> Result<(), Fail> {
    check_row(&rt, 60, &[], &[], &[])?;
    for (window, states, refusal, place) in [
        (0, 64, Refusal::Window, 0),
        (61, MOST_STATES, Refusal::Window, 0),
        (1, 127, Refusal::States, 2),
    ] {
        let mut left = lend(&rt, MOST_STATES)?;
        let mut right = lend(&rt, states)?;
        let refused = Refused::from(refusal);
        let played = play_row(&rt, window, &mut left, &mut right, &[]);
        assert_eq!(rt; played, Err(Unplayed::Refused(refused)));
        assert_eq!(rt; (refused.number(), refused.place()), (5, place));
        // Neither machine's memory was written.
        for memory in [&left, &right] {
            assert!(rt; memory.inputs.iter().all(|byte| *byte == 7));
            assert!(rt; memory.states.iter().all(|byte| *byte == 9));
        }
    }
    Ok(())
}
