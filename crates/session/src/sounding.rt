// Events with what is heard of them: the packets that a peer sends and the sounds that it hands
// out, each kept behind those before.
ghost use Rattle.std.specs.Prelude.{◌≡◌, ◌≢◌, ℕ, ◌≤◌, true, cond, is_err, IfOk, OnOk};
ghost use Rattle.std.specs.Prelude.{List, [], ◌∷◌, ◌++◌, length, take};
ghost use Rattle.court_game.specs.Games.{court_game, is_input};
ghost use Rattle.court_game.specs.Saved.{court_saved};
ghost use Rattle.court_game.specs.Sounding.{sounding_game};
ghost use Rattle.game.specs.declared.seat.Seat.{Seat as At};
ghost use Rattle.network.specs.Promise.{Stays};
ghost use Rattle.packet.specs.Wire.{message_bytes};
ghost use Rattle.peer.specs.Lent.{LongStates, log_of};
ghost use Rattle.peer.specs.Peers.{Event, Log, AsPredicted, arrival, sends, shows};
ghost use Rattle.rollback.specs.Rows.{StandsFor};
ghost use Rattle.rollback.specs.Saved.{Happened};
ghost use Rattle.rollback.specs.declared.outcome.Outcome.TheVariants.{Taken};
ghost use Rattle.session.specs.Events.{event_of, hands, said, writes};
ghost use Rattle.session.specs.Files.{event_bytes};
ghost use Rattle.session.specs.Rows.{After, log_after, memory, packets_sent, sounds_handed};
ghost use Rattle.sound.specs.Sound.{sound_bytes};

use crate::calls::hand_out;
use crate::event::Happening;
use crate::sending::happen_keeping;
use peer::Peer;
use rollback::Outcome;
use sound::FRAME_BYTES;
use std::alloc::AllocError;

// Whether an event has the sound of a frame handed out: a tick that plays one.
fn is_heard(event: Happening, outcome: Outcome) -> bool
    ensures { result ≡ hands (event_of event.entry) outcome }
{
    matches!((event, outcome), (Happening::Tick(_), Outcome::Taken(_)))
}

// Puts the sound of the last frame of what the peer shows behind those that are there, whole or not
// at all.
fn keep_shown(p: &Peer, states: &[u8], sounds: &mut Vec<u8>) -> Result<(), AllocError>
    requires { LongStates p.now.window states.now }
    ensures stands { OnOk result ((seat : At) (window : ℕ) (log : Log) (inputs : List ℕ) →
        StandsFor court_saved seat window log (memory p.now inputs states.now) →
        sounds.new.items ≡ sounds.old.items ++ sound_bytes (shows sounding_game seat log).tone) }
    ensures unkept { is_err result ≡ true → sounds.new.items ≡ sounds.old.items }
{
    let mut sound = [0; FRAME_BYTES];
    hand_out(p, states, &mut sound).unwrap();
    sounds.extend_from_slice(&sound)
}

/// One event. The packet that is written, if one is, and the sound of the frame that a tick plays
/// are put behind those before them. After a row of events these are all packets and all sounds
/// that the definitions give for it, in order: each frame is handed out once, as the peer shows it
/// when its tick plays it. Without memory for them the event has happened all the same, no sound is
/// added, and every packet that was there before stays.
pub fn happen_sounding(
    p: &mut Peer,
    inputs: &mut [u8],
    states: &mut [u8],
    event: Happening,
    packets: &mut Vec<u8>,
    sounds: &mut Vec<u8>,
) -> Result<Outcome, AllocError>
    ensures answer { let log = log_of p.old inputs.old in
        IfOk result (λ o. o ≡
        said is_input p.old.window (length inputs.old) (length states.old) log (event_of event.entry)) }
    ensures happens { let e = event_of event.entry in
        Happened court_saved p.old inputs.old states.old e p.new inputs.new states.new }
    ensures row { (seat : At) (window : ℕ) (es : List Event) →
        After seat window es (memory p.old inputs.old states.old) →
        After seat window (es ++ event_of event.entry ∷ []) (memory p.new inputs.new states.new) }
    ensures idle { IfOk result (λ o. ((n : ℕ) → o ≢ Taken n) →
        (p.new ≡ p.old) × (inputs.new ≡ inputs.old) × (states.new ≡ states.old)) }
    ensures few { IfOk result (λ o. (n : ℕ) → o ≡ Taken n → n ≤ p.old.window) }
    ensures stays { (seat : At) →
        Stays court_game seat (log_of p.old inputs.old) (log_of p.new inputs.new) }
    ensures guessed { IfOk result (λ o. (xs : List ℕ) → event_of event.entry ≡ arrival xs →
        AsPredicted (log_of p.old inputs.old) (log_of p.new inputs.new) →
        ((n : ℕ) → o ≡ Taken n → n ≡ 0) × (states.new ≡ states.old)) }
    ensures kept { IfOk result (λ o. packets.new.items ≡ packets.old.items
        ++ cond (writes (event_of event.entry) o)
        (event_bytes (arrival (message_bytes (sends (log_of p.new inputs.new))))) []) }
    ensures there { let before = packets.old.items in
        take (length before) packets.new.items ≡ before }
    ensures unheard { is_err result ≡ true → sounds.new.items ≡ sounds.old.items }
    ensures packets { OnOk result ((seat : At) (window : ℕ) (es : List Event) →
        After seat window es (memory p.old inputs.old states.old) →
        packets.new.items
        ≡ packets.old.items ++ packets_sent window (log_after window es) (event_of event.entry ∷ [])) }
    ensures sounds { OnOk result ((seat : At) (window : ℕ) (es : List Event) →
        After seat window es (memory p.old inputs.old states.old) →
        let log = log_after window es in
        sounds.new.items
        ≡ sounds.old.items ++ sounds_handed seat window log (event_of event.entry ∷ [])) }
{
    let outcome = happen_keeping(p, inputs, states, event, packets)?;
    if is_heard(event, outcome) {
        keep_shown(p, states, sounds)?;
    }
    Ok(outcome)
}
