// The plain game of the court: what every other way of playing it is held against.
ghost use Rattle.std.specs.Prelude.{◌≡◌, ℕ, List, ◌++◌, map, length, is_ok, IfOk, nat_le};
ghost use Rattle.court.specs.Bounds.{InCourt};
ghost use Rattle.court.specs.Frame.{start};
ghost use Rattle.court_game.specs.Games.{court_game};
ghost use Rattle.game.specs.Plain.{plays, seat_0, seat_1};

use crate::sounding::CourtGame;
use court::Court;
use game::rules::Game;
use sound::Tone;

// As many frames as a game has at most, named here for callers, who need not know `game`.
pub const MOST_FRAMES: usize = game::plain::MOST_FRAMES;

// All inputs of both seats from the start, as many frames as both have. Each Court carries what `inside` says, here and below;
// it is said too, so that a caller reads it without the type.
pub fn play(left: &[u8], right: &[u8]) -> Court
    ensures value { result.state ≡ plays court_game start left.now right.now }
    ensures inside { InCourt result.state }
{
    game::plain::play::<CourtGame>(left, right).court
}

// On from a state. One that was come to from the start goes on as if all inputs had been played from the start.
pub fn play_on(from: Court, left: &[u8], right: &[u8]) -> Court
    ensures value { result.state ≡ plays court_game from.state left.now right.now }
    ensures whole { (xs ys : List ℕ) → length xs ≡ length ys → from.state ≡ plays court_game start xs ys → result.state ≡ plays court_game start (xs ++ left.now) (ys ++ right.now) }
    ensures inside { InCourt result.state }
{
    game::plain::play_on(
        CourtGame {
            court: from,
            tone: Tone::silent(),
        },
        left,
        right,
    )
    .court
}

// Why a file of frames is not played.
#[derive(Clone, Copy, PartialEq, Eq, Debug)]
pub enum Unplayed {
    // It has more than 1,000,000 frames.
    TooMany,
}

// From the start, by frames of one byte: seat 0's input and 16 times seat 1's; at most 1,000,000 of them.
pub fn play_frames(frames: &[u8]) -> Result<Court, Unplayed>
    ensures answer { is_ok result ≡ nat_le (length frames.now) 1000000 }
    ensures value { IfOk result (λ c. c.state ≡ plays court_game start (map seat_0 frames.now) (map seat_1 frames.now)) }
    ensures inside { IfOk result (λ c. InCourt c.state) }
{
    if frames.len() > MOST_FRAMES {
        return Err(Unplayed::TooMany);
    }
    Ok(game::plain::play_frames(CourtGame::start(), frames).court)
}
