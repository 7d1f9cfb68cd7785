// The packets that a peer sends, kept as events of the other's file.
ghost use Rattle.std.specs.Prelude.{◌≡◌, ℕ, ◌≤◌, true, List, [], ◌∷◌, ◌++◌, length, cond, is_err, IfOk, OnOk, ◌≢◌};
ghost use Rattle.court_game.specs.Games.{court_game, is_input};
ghost use Rattle.court_game.specs.Saved.{court_saved};
ghost use Rattle.game.specs.declared.seat.Seat.{Seat as At};
ghost use Rattle.packet.specs.Wire.{message_bytes};
ghost use Rattle.peer.specs.Lent.{log_of};
ghost use Rattle.network.specs.Promise.{Stays};
ghost use Rattle.peer.specs.Peers.{Event, AsPredicted, arrival, sends};
ghost use Rattle.rollback.specs.Saved.{Happened};
ghost use Rattle.rollback.specs.declared.outcome.Outcome.TheVariants.{Taken};
ghost use Rattle.session.specs.Events.{event_of, said, writes};
ghost use Rattle.session.specs.Files.{event_bytes};
ghost use Rattle.session.specs.Rows.{After, log_after, memory, packets_sent};

use crate::calls::{PACKET_LENGTH, happen};
use crate::event::Happening;
use crate::file::{HEAD, arrival_head};
use peer::Peer;
use rollback::Outcome;
use std::alloc::AllocError;

// Puts a packet behind the events that are there, whole or not at all.
fn keep_packet(packets: &mut Vec<u8>, packet: &[u8]) -> Result<(), AllocError>
    requires { length packet.now ≤ 130 }
    ensures kept { OnOk result (packets.new.items ≡ packets.old.items ++ event_bytes (arrival packet.now)) }
    ensures idle { is_err result ≡ true → packets.new.items ≡ packets.old.items }
{
    let mut event = [0; HEAD + PACKET_LENGTH];
    let end = HEAD + packet.len();
    // The check proves that the cast loses nothing.
    event[..HEAD].copy_from_slice(&arrival_head(packet.len() as u16));
    event[HEAD..end].copy_from_slice(packet);
    packets.extend_from_slice(&event[..end])
}

// One event, and the packet that is written, if one is, behind those before it. After a row of events these are all packets that the
// definitions give for it, in order. Without memory for the packet the event has happened all the same.
pub fn happen_keeping(
    p: &mut Peer,
    inputs: &mut [u8],
    states: &mut [u8],
    event: Happening,
    packets: &mut Vec<u8>,
) -> Result<Outcome, AllocError>
    ensures answer { IfOk result (λ o. o ≡ said is_input p.old.window (length inputs.old) (length states.old) (log_of p.old inputs.old) (event_of event.entry)) }
    ensures happens { Happened court_saved p.old inputs.old states.old (event_of event.entry) p.new inputs.new states.new }
    ensures row { (seat : At) (window : ℕ) (es : List Event) → After seat window es (memory p.old inputs.old states.old) → After seat window (es ++ event_of event.entry ∷ []) (memory p.new inputs.new states.new) }
    ensures idle { IfOk result (λ o. ((n : ℕ) → o ≢ Taken n) → (p.new ≡ p.old) × (inputs.new ≡ inputs.old) × (states.new ≡ states.old)) }
    ensures few { IfOk result (λ o. (n : ℕ) → o ≡ Taken n → n ≤ p.old.window) }
    ensures stays { (seat : At) → Stays court_game seat (log_of p.old inputs.old) (log_of p.new inputs.new) }
    ensures guessed { IfOk result (λ o. (xs : List ℕ) → event_of event.entry ≡ arrival xs → AsPredicted (log_of p.old inputs.old) (log_of p.new inputs.new) → ((n : ℕ) → o ≡ Taken n → n ≡ 0) × (states.new ≡ states.old)) }
    ensures kept { IfOk result (λ o. packets.new.items ≡ packets.old.items ++ cond (writes (event_of event.entry) o) (event_bytes (arrival (message_bytes (sends (log_of p.new inputs.new))))) []) }
    ensures unkept { is_err result ≡ true → packets.new.items ≡ packets.old.items }
    ensures packets { OnOk result ((seat : At) (window : ℕ) (es : List Event) → After seat window es (memory p.old inputs.old states.old) → packets.new.items ≡ packets.old.items ++ packets_sent window (log_after window es) (event_of event.entry ∷ [])) }
{
    let mut packet = [0; PACKET_LENGTH];
    let answer = happen(p, inputs, states, event, &mut packet);
    if let Some(length) = answer.sent {
        keep_packet(packets, &packet[..length])?;
    }
    Ok(answer.outcome)
}
