// Saved states in lent memory, in slots of 64 bytes.
ghost use Rattle.std.specs.Prelude.{◌≡◌, ◌+◌, ◌*◌, ◌%◌, ◌≤◌, length};
ghost use Rattle.rollback.specs.Saved.{slot as slot_in, with_slot};

use game::saved::{STATE_BYTES, SavedGame};
use peer::Peer;

// Where the state after so many frames lies. There is one slot more than the window, so no state is lost that may be gone back to.
pub(crate) fn slot_of(p: &Peer, frames: usize) -> usize
    ensures value { result ≡ frames % (p.now.window + 1) }
    ensures within { result ≤ p.now.window }
{
    frames % (p.window + 1)
}

// Writes one slot. No other byte changes.
#[tactic(auto, unfolding(crate::specs::Saved::with_slot))]
pub(crate) fn save_at<G: SavedGame>(states: &mut [u8], slot: usize, state: G)
    requires { slot * 64 + 64 ≤ length states.old }
    ensures { states.new ≡ with_slot states.old slot (G.saved.coded (G.state state)) }
{
    let at = slot * STATE_BYTES;
    state.save(&mut states[at..at + STATE_BYTES]);
}

#[tactic(auto, unfolding(crate::specs::Saved::slot))]
pub(crate) fn load_at<G: SavedGame>(states: &[u8], slot: usize) -> G
    requires { slot * 64 + 64 ≤ length states.now }
    ensures { (s : G.states) → G.saved.ok s → slot_in states.now slot ≡ G.saved.coded s → G.state result ≡ s }
{
    let at = slot * STATE_BYTES;
    G::load(&states[at..at + STATE_BYTES])
}
