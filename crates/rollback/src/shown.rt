// What a peer shows: the state saved after its last frame.
ghost use Rattle.std.specs.Prelude.{◌≡◌, ◌+◌, ◌*◌, ◌<◌, length, MatchResult};
ghost use Rattle.peer.specs.declared.refusal.Refusal.TheVariants.{States};
ghost use Rattle.peer.specs.Lent.{LongStates};
ghost use Rattle.rollback.specs.Saved.{Shown};

use crate::slots::{load_at, slot_of};
use game::saved::SavedGame;
use peer::memory::check_states;
use peer::{Peer, Refusal};

// Whatever the inputs are that the saved states stand for: the plain game with them, those that have not come predicted.
pub fn shown<G: SavedGame>(p: &Peer, states: &[u8]) -> Result<G, Refusal>
    ensures { MatchResult result (λ s. LongStates p.now.window states.now × Shown G.saved p.now states.now (G.state s)) (λ f. (f ≡ States) × (length states.now < (p.now.window + 1) * 64)) }
{
    check_states(p.window, states)?;
    Ok(load_at(states, slot_of(p, p.own)))
}
