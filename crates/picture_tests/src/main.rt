// Pictures of chosen states: how many dots of each kind, and a checksum of all bytes; one picture whole, as text.
// What it must print was worked out from the rules, apart from this code.
// Rests on court, court_game and picture.
#![tactic(auto)]

ghost use Rattle.std.specs.Prelude.{◌≤◌, pos, ◌-ℤ◌, ◌≤ℤ◌};
ghost use Rattle.court.specs.Bounds.{PaddleIn};
ghost use Rattle.court.specs.Frame.{court_width, paddle_half_x, left_most, right_least};

use court::state::{Ball, Paddle, Score};
use court::{Court, State};
use court_game::plain::play;
use picture::{LENGTH, draw, text_of};

// What stands in lent memory before a picture is drawn; no dot has this byte.
const BEFORE: u8 = 9;

// FNV-1a, of 32 bits.
fn checksum(bytes: &[u8]) -> u32 {
    bytes.iter().fold(2166136261, |sum, b| {
        (sum ^ u32::from(*b)).wrapping_mul(16777619)
    })
}

fn count(bytes: &[u8], kind: u8) -> usize {
    bytes.iter().filter(|b| **b == kind).count()
}

fn print_counts(rt: &HostRuntime, bytes: &[u8]) -> anyhow::Result<()> {
    for kind in 0..5 {
        print!(rt; " {}", count(bytes, kind))?;
    }
    println!(rt;
        " before {} checksum {}",
        count(bytes, BEFORE),
        checksum(bytes)
    )?;
    Ok(())
}

// Draws into memory of a length, and prints whether it was refused and what the memory then holds.
fn show_in(rt: &HostRuntime, name: &str, court: Court, length: usize) -> anyhow::Result<()> {
    let mut bytes = vec![in rt.alloc(); BEFORE; length]?;
    print!(rt; "{name}:")?;
    if let Err(e) = draw(court, bytes.as_mut_slice()) {
        print!(rt; " {e}")?;
    }
    print_counts(rt, bytes.as_slice())
}

fn show(rt: &HostRuntime, name: &str, court: Court) -> anyhow::Result<()> {
    show_in(rt, name, court, LENGTH)
}

// A court with the ball at rest.
fn court_of(x: i32, y: i32, left: Paddle, right: Paddle, score: Score) -> Court
    requires ball { (pos 512 ≤ℤ x) × ((x ≤ℤ pos 40448) × ((pos 512 ≤ℤ y) × (y ≤ℤ pos 30208))) }
    requires left { PaddleIn paddle_half_x left_most left }
    requires right { PaddleIn right_least (court_width -ℤ paddle_half_x) right }
    requires score { (score.left ≤ 9) × (score.right ≤ 9) }
{
    let ball = Ball { x, y, dx: 0, dy: 0 };
    Court {
        state: State {
            ball,
            left,
            right,
            score,
            wait: 0,
        },
    }
}

// A paddle where it starts.
const LEFT: Paddle = Paddle { x: 2048, y: 15360 };

const RIGHT: Paddle = Paddle { x: 38912, y: 15360 };

fn show_games(rt: &HostRuntime) -> anyhow::Result<()> {
    show(rt, "start", Court::new())?;
    show(rt, "100 frames", play(&[0; 100], &[0; 100]))?;
    show(rt, "first point", play(&[0; 246], &[8; 246]))
}

fn show_scores(rt: &HostRuntime) -> anyhow::Result<()> {
    for n in 0..10 {
        let score = Score {
            left: n,
            right: 9 - n,
        };
        print!(rt; "{} {} ", score.left, score.right)?;
        show(rt, "score", court_of(5000, 20000, LEFT, RIGHT, score))?;
    }
    Ok(())
}

fn show_paddles(rt: &HostRuntime) -> anyhow::Result<()> {
    let left = Paddle { x: 3001, y: 9999 };
    let right = Paddle { x: 33333, y: 22222 };
    let score = Score { left: 2, right: 6 };
    show(
        rt,
        "between dots",
        court_of(12345, 6789, left, right, score),
    )?;
    let left = Paddle { x: 512, y: 2048 };
    let right = Paddle { x: 40448, y: 28672 };
    let none = Score { left: 0, right: 0 };
    show(rt, "two corners", court_of(512, 512, left, right, none))?;
    let left = Paddle { x: 512, y: 28672 };
    let right = Paddle { x: 40448, y: 2048 };
    show(
        rt,
        "the other corners",
        court_of(40448, 30208, left, right, none),
    )?;
    let left = Paddle { x: 19968, y: 2048 };
    let right = Paddle { x: 20992, y: 4000 };
    let score = Score { left: 3, right: 4 };
    show(
        rt,
        "paddles at the centre",
        court_of(20480, 2048, left, right, score),
    )
}

fn show_balls(rt: &HostRuntime) -> anyhow::Result<()> {
    let score = Score { left: 5, right: 8 };
    show(
        rt,
        "ball on the centre line",
        court_of(20600, 10077, LEFT, RIGHT, score),
    )?;
    let score = Score { left: 8, right: 8 };
    show(
        rt,
        "ball over the left digit",
        court_of(18304, 1664, LEFT, RIGHT, score),
    )?;
    show(
        rt,
        "ball over the right digit",
        court_of(22272, 1300, LEFT, RIGHT, score),
    )?;
    let left = Paddle { x: 18304, y: 2048 };
    let score = Score { left: 9, right: 9 };
    show(
        rt,
        "paddle over ball and digit",
        court_of(18500, 1700, left, RIGHT, score),
    )
}

fn main(rt: HostRuntime) -> anyhow::Result<()> {
    show_games(&rt)?;
    show_scores(&rt)?;
    show_paddles(&rt)?;
    show_balls(&rt)?;
    let left = Paddle { x: 5300, y: 10000 };
    let right = Paddle { x: 34000, y: 9900 };
    let court = court_of(5000, 9000, left, right, Score { left: 3, right: 7 });
    show(&rt, "paddle over ball", court)?;
    show_in(&rt, "too short", court, LENGTH - 1)?;
    show_in(&rt, "empty", court, 0)?;
    show_in(&rt, "longer", court, LENGTH + 3)?;
    let mut bytes = vec![in rt.alloc(); BEFORE; LENGTH]?;
    let _ = draw(court, bytes.as_mut_slice());
    print!(rt; "{}", text_of(rt.alloc(), bytes.as_slice())?)?;
    Ok(())
}
