// Whole sessions: the pictures at their ends, and what is refused.
use crate::files::{arrival, packet, tick, ticks};
use court_game::plain::play;
use game::seat::Seat;
use peer::memory::{INPUTS, MOST_STATES};
use picture::LENGTH;
use session::whole::play_session;
use std::alloc::AllocGlobal;
use std::process::Abort;
use std::test::Fail;

// The picture after a session is that of the plain game with these inputs, and the bytes behind it stay.
fn check_picture(
    rt: &(impl Abort + AllocGlobal),
    seat: Seat,
    window: usize,
    file: &[u8],
    left: &[u8],
    right: &[u8],
) -> Result<(), Fail> {
    let mut inputs = vec![in rt.alloc(); 7u8; INPUTS]?;
    let mut states = vec![in rt.alloc(); 0u8; MOST_STATES]?;
    let mut shown = vec![in rt.alloc(); 9u8; LENGTH + 3]?;
    let mut plain = vec![in rt.alloc(); 9u8; LENGTH + 3]?;
    play_session(seat, window, &mut inputs, &mut states, &mut shown, file)?;
    picture::draw(play(left, right), &mut plain)?;
    assert_eq!(rt; shown.as_slice(), plain.as_slice());
    Ok(())
}

// A game of which the inputs of one seat are ticks, and those of the other come in packets, seven at a time.
fn check_game(
    rt: &(impl Abort + AllocGlobal),
    seat: Seat,
    left: &[u8],
    right: &[u8],
) -> Result<(), Fail> {
    let (own, other) = seat.in_order(left, right);
    let mut file = Vec::new(rt.alloc());
    for (k, (some, came)) in own.chunks(7).zip(other.chunks(7)).enumerate() {
        let first = u32::try_from(k.saturating_mul(7))?;
        ticks(&mut file, some)?;
        arrival(&mut file, &packet(rt.alloc(), first, 0, came)?)?;
    }
    check_picture(rt, seat, 60, &file, left, right)
}

// The games whose states after the last frame are proved of the definitions, with either seat at this machine.
#[test]
fn games(rt: HostRuntime) -> Result<(), Fail> {
    check_game(&rt, Seat::Left, &[0; 60], &[0; 60])?;
    check_game(&rt, Seat::Right, &[0; 61], &[0; 61])?;
    check_game(&rt, Seat::Left, &[0; 100], &[0; 100])?;
    let mut left = [5; 20];
    left[10..].fill(10);
    check_game(&rt, Seat::Left, &left, &[6; 20])?;
    check_game(&rt, Seat::Right, &left, &[6; 20])?;
    check_game(&rt, Seat::Left, &[0; 246], &[8; 246])?;
    check_game(&rt, Seat::Right, &[0; 377], &[0; 377])
}

// Window 3, four ticks and no packet: the fourth is lost. Then a packet of which nothing was predicted right.
#[test]
fn a_lost_tick_and_a_packet(rt: HostRuntime) -> Result<(), Fail> {
    let mut file = Vec::new(rt.alloc());
    ticks(&mut file, &[1; 4])?;
    check_picture(&rt, Seat::Left, 3, &file, &[1; 3], &[0; 3])?;
    arrival(&mut file, &packet(rt.alloc(), 0, 0, &[8; 3])?)?;
    check_picture(&rt, Seat::Left, 3, &file, &[1; 3], &[8; 3])
}

// The other seat, with what is refused among the events.
#[test]
fn wrong_events_change_nothing(rt: HostRuntime) -> Result<(), Fail> {
    let eights = packet(rt.alloc(), 0, 0, &[8; 3])?;
    let mut file = Vec::new(rt.alloc());
    tick(&mut file, 16)?;
    arrival(&mut file, &eights)?;
    arrival(&mut file, b"no packet")?;
    tick(&mut file, 2)?;
    arrival(&mut file, &eights)?;
    arrival(&mut file, &packet(rt.alloc(), 0, 2, &[1])?)?;
    tick(&mut file, 4)?;
    tick(&mut file, 255)?;
    ticks(&mut file, &[4; 2])?;
    check_picture(&rt, Seat::Right, 60, &file, &[8; 4], &[2, 4, 4, 4])
}

// A gap, an overlap, a packet again, an old one, and one that contradicts what came before.
#[test]
fn packets_join(rt: HostRuntime) -> Result<(), Fail> {
    let mut file = Vec::new(rt.alloc());
    arrival(&mut file, &packet(rt.alloc(), 1, 0, &[15; 3])?)?;
    arrival(&mut file, &packet(rt.alloc(), 0, 0, &[1, 2, 4])?)?;
    arrival(&mut file, &packet(rt.alloc(), 0, 0, &[1, 2, 4])?)?;
    arrival(&mut file, &packet(rt.alloc(), 2, 0, &[9, 8, 5])?)?;
    arrival(&mut file, &packet(rt.alloc(), 0, 0, &[6])?)?;
    ticks(&mut file, &[0; 7])?;
    check_picture(&rt, Seat::Left, 2, &file, &[0; 7], &[1, 2, 4, 8, 5, 5, 5])
}

// How many bytes a session is lent.
#[derive(Clone, Copy)]
struct Lent {
    inputs: usize,
    states: usize,
    picture: usize,
}

// Enough for a window of 1.
const ENOUGH: Lent = Lent {
    inputs: INPUTS,
    states: 128,
    picture: LENGTH,
};

// The number and the place that a session is refused with, by its window and the length of the lent memory; none where it begins.
fn told(
    rt: &(impl Abort + AllocGlobal),
    window: usize,
    lent: Lent,
    file: &[u8],
) -> Result<Option<(u8, usize)>, Fail> {
    let mut inputs = vec![in rt.alloc(); 7u8; lent.inputs]?;
    let mut states = vec![in rt.alloc(); 0u8; lent.states]?;
    let mut picture = vec![in rt.alloc(); 9u8; lent.picture]?;
    match play_session(
        Seat::Left,
        window,
        &mut inputs,
        &mut states,
        &mut picture,
        file,
    ) {
        Ok(_) => Ok(None),
        Err(f) => {
            assert_eq!(rt; (inputs.first(), picture.first()), (Some(&7), Some(&9)));
            Ok(Some((f.number(), f.place())))
        }
    }
}

// What does not let a session begin comes first, and then a file that is no row of events.
#[test]
fn refusals(rt: HostRuntime) -> Result<(), Fail> {
    let mut file = Vec::new(rt.alloc());
    ticks(&mut file, &[1; 3])?;
    assert_eq!(rt; told(&rt, 1, ENOUGH, &file)?, None);
    file.push(2)?;
    assert_eq!(rt; told(&rt, 1, ENOUGH, &file)?, Some((4, 6)));
    let short = Lent {
        picture: 19199,
        ..ENOUGH
    };
    assert_eq!(rt; told(&rt, 1, short, &file)?, Some((5, 3)));
    let short = Lent {
        states: 127,
        ..short
    };
    assert_eq!(rt; told(&rt, 1, short, &file)?, Some((5, 2)));
    let short = Lent {
        inputs: 1_999_999,
        ..short
    };
    assert_eq!(rt; told(&rt, 1, short, &file)?, Some((5, 1)));
    assert_eq!(rt; told(&rt, 61, short, &file)?, Some((5, 0)));
    assert_eq!(rt; told(&rt, 0, short, &file)?, Some((5, 0)));
    Ok(())
}
