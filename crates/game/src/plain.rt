// The plain game: every input of both seats, one frame after the other.
ghost use Rattle.std.specs.Prelude.{◌≡◌, ℕ, List, ◌++◌, map, length};
ghost use Rattle.game.specs.Plain.{plays, seat_0, seat_1};

use crate::rules::Game;

// As many frames as a game has at most.
pub const MOST_FRAMES: usize = 1_000_000;

// The clauses of other crates say the number.
const _: () = prove!(MOST_FRAMES == 1_000_000);

// On from a state, as many frames as both seats have inputs. A state that was come to by inputs from the start
// goes on as if all inputs had been played from the start.
pub fn play_on<G: Game>(from: G, left: &[u8], right: &[u8]) -> G
    ensures value { G.seen result ≡ plays G.rules.game (G.seen from) left.now right.now }
    ensures whole { (xs ys : List ℕ) → length xs ≡ length ys → G.seen from ≡ plays G.rules.game G.rules.game.start xs ys → G.seen result ≡ plays G.rules.game G.rules.game.start (xs ++ left.now) (ys ++ right.now) }
{
    let mut state = from;
    for (a, b) in left.iter().zip(right.iter()) {
        state = state.advance(*a, *b);
    }
    state
}

// From the start.
pub fn play<G: Game>(left: &[u8], right: &[u8]) -> G
    ensures { G.seen result ≡ plays G.rules.game G.rules.game.start left.now right.now }
{
    play_on(G::start(), left, right)
}

// On from a state, by frames of one byte: seat 0's input and 16 times seat 1's. A loop of its own, since one function over an
// iterator of pairs would be no shorter, and would need that every such iterator ends.
#[tactic(auto, using(crate::proofs::Plays::frames_more, crate::proofs::Plays::frames_done))]
pub fn play_frames<G: Game>(from: G, frames: &[u8]) -> G
    ensures { G.seen result ≡ plays G.rules.game (G.seen from) (map seat_0 frames.now) (map seat_1 frames.now) }
{
    let mut state = from;
    for frame in frames {
        state = state.advance(*frame % 16, *frame / 16);
    }
    state
}
