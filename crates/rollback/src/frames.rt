// Frames played one after the other, each saved and counted.
ghost use Rattle.std.specs.Prelude.{◌≡◌, ◌+◌, ◌%◌, ◌<◌, ◌≤◌};
ghost use Rattle.peer.specs.Lent.{LongStates, seated, own_at, other_at};
ghost use Rattle.rollback.specs.Saved.{Roomy, slot as slot_in, with_slot};

use crate::slots::{load_at, save_at, slot_of};
use game::saved::SavedGame;
use peer::Peer;
use peer::log::other_input;

// A game that is played on from a saved state: how many frames it has come to, its state there, and how many of them were played
// since it was loaded.
#[derive(Clone, Copy)]
pub(crate) struct Going<G> {
    pub(crate) frame: usize,
    pub(crate) state: G,
    pub(crate) played: usize,
}

impl<G: SavedGame> Going<G> {
    // From the state saved after so many frames.
    pub(crate) fn from_saved(p: &Peer, states: &[u8], frame: usize) -> Going<G>
        requires { LongStates p.now.window states.now }
        ensures frame { result.frame ≡ frame }
        ensures state { (s : G.states) → G.saved.ok s → slot_in states.now (frame % (p.now.window + 1)) ≡ G.saved.coded s → G.state result.state ≡ s }
        ensures played { result.played ≡ 0 }
    {
        Going {
            frame,
            state: load_at(states, slot_of(p, frame)),
            played: 0,
        }
    }

    // Plays the next frame, saves the state that it comes to, and counts the frame.
    // Nothing else plays a frame, so every frame that is played is counted, and none that is not.
    pub(crate) fn play_frame(&mut self, p: &Peer, inputs: &[u8], states: &mut [u8])
        requires roomy { Roomy p.now.window inputs.now states.old }
        requires made { self.old.frame < p.now.own }
        requires few { self.old.played ≤ 1000000 }
        ensures frame { self.new.frame ≡ self.old.frame + 1 }
        ensures state { G.state self.new.state ≡ (seated p.now.seat G.saved.game).frame (G.state self.old.state) (own_at inputs.now self.old.frame) (other_at p.now.other inputs.now self.old.frame) }
        ensures played { self.new.played ≡ self.old.played + 1 }
        ensures saved { states.new ≡ with_slot states.old ((self.old.frame + 1) % (p.now.window + 1)) (G.saved.coded (G.state self.new.state)) }
    {
        let other = other_input(inputs, p.other, self.frame);
        let (left, right) = p.seat.in_order(inputs[self.frame], other);
        self.state = self.state.advance(left, right);
        self.frame += 1;
        save_at(states, slot_of(p, self.frame), self.state);
        self.played += 1;
    }
}
