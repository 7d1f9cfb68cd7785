// Going back: frames played once more from a saved state.
ghost use Rattle.std.specs.Prelude.{◌≡◌, ◌+◌, ◌%◌, ◌≤◌};
ghost use Rattle.peer.specs.Lent.{seated, after};
ghost use Rattle.rollback.specs.Saved.{Roomy, Behind, Saved, slot as slot_in};

use crate::frames::Going;
use game::saved::SavedGame;
use peer::Peer;

// Plays on from the state saved after so many frames to the peer's last, and saves each state on the way.
// Hands back how many frames it played.
pub(crate) fn replay<G: SavedGame>(p: &Peer, inputs: &[u8], states: &mut [u8], from: usize) -> usize
    requires roomy { Roomy p.now.window inputs.now states.old }
    requires back { from ≤ p.now.own }
    requires near { p.now.own ≤ from + p.now.window }
    ensures count { result + from ≡ p.now.own }
    ensures saved { slot_in states.old (from % (p.now.window + 1)) ≡ G.saved.coded (after (seated p.now.seat G.saved.game) inputs.now p.now.other from) → Saved G.saved p.now.seat p.now.window inputs.now p.now.other states.new from p.now.own }
    ensures behind { Behind (p.now.window + 1) states.old states.new }
{
    let mut game: Going<G> = Going::from_saved(p, states, from);
    // Decided for all of this repository: going back is a loop over frames from a saved state, left by a label.
    'replay: loop {
        if game.frame == p.own {
            break 'replay;
        }
        game.play_frame(p, inputs, states);
    }
    game.played
}
