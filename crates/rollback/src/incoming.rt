// Inputs of the other: what came is compared with what was predicted, and where that was wrong the peer goes back.
ghost use Rattle.std.specs.Prelude.{◌≡◌, ℕ, ◌+◌, ◌<◌, ◌≤◌, MatchOption, Ok, min};
ghost use Rattle.packet.specs.Wire.{Proper, message_of};
ghost use Rattle.peer.specs.Lent.{Long, Untouched, log_of, other_at};
ghost use Rattle.peer.specs.Peers.{heard, AsPredicted, to_play};
ghost use Rattle.rollback.specs.Saved.{Roomy, Behind, Kept, AsTaken};

use crate::replay::replay;
use game::saved::SavedGame;
use packet::Packet;
use peer::Peer;
use peer::log::{HALF, join, other_input};

// The first frame that was played with a wrong prediction, where so many of the other's inputs had come before.
fn first_wrong(p: &Peer, inputs: &[u8], came: usize) -> Option<usize>
    requires { (Long inputs.now) × (came ≤ p.now.other) }
    ensures { MatchOption result ((i : ℕ) → came ≤ i → i < min p.now.own p.now.other → AsTaken came inputs.now i) (λ w. (came ≤ w) × (w < min p.now.own p.now.other) × (¬ AsTaken came inputs.now w) × ((i : ℕ) → came ≤ i → i < w → AsTaken came inputs.now i)) }
{
    (came..p.confirmed()).find(|&frame| inputs[HALF + frame] != other_input(inputs, came, frame))
}

// Takes in a packet. Where all was predicted right it plays nothing, and no byte of the states changes; else it goes back to the
// state before the first wrong frame and plays on from there. Hands back how many frames it played.
pub(crate) fn take_in<G: SavedGame>(
    p: &mut Peer,
    inputs: &mut [u8],
    states: &mut [u8],
    packet: Packet,
) -> usize
    requires roomy { Roomy p.old.window inputs.old states.old }
    requires proper { Proper p.old.own (message_of packet) }
    ensures window { p.new.window ≡ p.old.window }
    ensures seat { p.new.seat ≡ p.old.seat }
    ensures log { log_of p.new inputs.new ≡ heard (log_of p.old inputs.old) (Ok (message_of packet.entry)) }
    ensures untouched { Untouched p.old inputs.old p.new inputs.new }
    ensures behind { Behind (p.old.window + 1) states.old states.new }
    ensures keeps { Kept G.saved p.old inputs.old states.old → Kept G.saved p.new inputs.new states.new }
    ensures count { result ≡ to_play (log_of p.old inputs.old) (log_of p.new inputs.new) }
    ensures few { result ≤ p.old.window }
    ensures guessed { AsPredicted (log_of p.old inputs.old) (log_of p.new inputs.new) → (result ≡ 0) × (states.new ≡ states.old) }
{
    let came = p.other;
    join(p, inputs, packet);
    match first_wrong(p, inputs, came) {
        Some(wrong) => replay::<G>(p, inputs, states, wrong),
        None => 0,
    }
}
