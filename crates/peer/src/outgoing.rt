// What a peer sends.
ghost use Rattle.std.specs.Prelude.{◌≡◌, ◌<◌, length, MatchResult};
ghost use Rattle.packet.specs.Wire.{message_of};
ghost use Rattle.peer.specs.declared.refusal.Refusal.TheVariants.{Inputs};
ghost use Rattle.peer.specs.Lent.{Long, log_of};
ghost use Rattle.peer.specs.Peers.{sends};

use crate::memory::check_inputs;
use crate::numbers::Peer;
use crate::refusal::Refusal;
use packet::{MOST_INPUTS, Packet};

// The packet that a peer sends after a tick, also after one that was lost. Its inputs are a part of the lent memory.
pub fn outgoing<'a>(p: &Peer, inputs: &'a [u8]) -> Result<Packet<'a>, Refusal>
    ensures { MatchResult result (λ k. Long inputs.now × (message_of k ≡ sends (log_of p.now inputs.now))) (λ f. (f ≡ Inputs) × (length inputs.now < 2000000)) }
{
    check_inputs(inputs)?;
    let from = p.acked;
    let to = p.own.min(from + usize::from(MOST_INPUTS));
    // The check proves that these casts lose nothing: `try_from` would bring errors that cannot come.
    Ok(Packet {
        first: from as u32,
        ack: p.other as u32,
        inputs: &inputs[from..to],
    })
}
