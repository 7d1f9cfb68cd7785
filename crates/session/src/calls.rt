// One call for each event, and what the peer then shows and sends, of the court's game. Memory is lent at each call.
ghost use Rattle.std.specs.Prelude.{◌≡◌, ℕ, ◌+◌, ◌*◌, ◌<◌, ◌≤◌, true, List, [], ◌∷◌, ◌++◌, length, drop, is_ok, is_err, IfOk, MatchResult, OnOk, ◌≢◌, min};
ghost use Rattle.court.specs.Bounds.{InCourt};
ghost use Rattle.court.specs.declared.state.State.{State};
ghost use Rattle.court_game.specs.Games.{court_game, is_input};
ghost use Rattle.court_game.specs.Saved.{court_saved};
ghost use Rattle.court_game.specs.Sounding.{sounding_game};
ghost use Rattle.game.specs.declared.seat.Seat.{Seat as At};
ghost use Rattle.packet.specs.Wire.{message_length};
ghost use Rattle.peer.specs.Lent.{Long, LongStates, log_of};
ghost use Rattle.peer.specs.Refusals.{begin_checked};
ghost use Rattle.network.specs.Promise.{Stays};
ghost use Rattle.peer.specs.Peers.{Event, Log, arrival, AsPredicted, shows, sends};
ghost use Rattle.rollback.specs.declared.outcome.Outcome.TheVariants.{Taken};
ghost use Rattle.peer.specs.declared.refusal.Refusal.TheVariants.{States};
ghost use Rattle.picture.specs.Picture.{picture_of};
ghost use Rattle.rollback.specs.Rows.{StandsFor};
ghost use Rattle.rollback.specs.Saved.{Behind, Happened};
ghost use Rattle.session.specs.Events.{event_of, said, writes, sent, packet_over};
ghost use Rattle.session.specs.Standing.{status_of};
ghost use Rattle.session.specs.Refusals.{as_begun, said_begun, said_drawn, said_handed};
ghost use Rattle.sound.specs.Sound.{sound_bytes};
ghost use Rattle.sound.specs.Tones.{Sounding, IsInRange};
ghost use Rattle.session.specs.Rows.{After, WritesOwn, log_after, memory};

use crate::event::{Answer, Happening};
use crate::refused::Refused;
use crate::status::Status;
use court_game::sounding::CourtGame;
use game::seat::Seat;
use packet::MOST_LENGTH;
use peer::Peer;
use peer::outgoing::outgoing;
use picture::LENGTH;
use rollback::Outcome;
use rollback::events::{receive, tick};
use rollback::shown::shown;
use sound::write_samples;

// As many bytes as a packet has at most, named here for callers, who need not know `packet`.
pub const PACKET_LENGTH: usize = MOST_LENGTH;

// Whether a session may begin, or why not: the window, the lent inputs, states or picture.
pub fn check_lent(
    window: usize,
    inputs: &[u8],
    states: &[u8],
    picture: &[u8],
) -> Result<(), Refused>
    ensures { result ≡ said_begun (begin_checked window (length inputs.now) (length states.now)) (length picture.now) }
{
    rollback::events::check_begin(window, inputs, states)?;
    if picture.len() < LENGTH {
        return Err(Refused::Picture);
    }
    Ok(())
}

// A new peer of the court's game, or why there is none. A refusal changes nothing.
pub fn begin(
    seat: Seat,
    window: usize,
    inputs: &[u8],
    states: &mut [u8],
    picture: &[u8],
) -> Result<Peer, Refused>
    ensures answer { as_begun result ≡ said_begun (begin_checked window (length inputs.now) (length states.old)) (length picture.now) }
    ensures row { IfOk result (λ p. After seat window [] (memory p inputs.now states.new)) }
    ensures behind { Behind 1 states.old states.new }
    ensures idle { is_err result ≡ true → states.new ≡ states.old }
{
    check_lent(window, inputs, states, picture)?;
    Ok(rollback::events::begin::<CourtGame>(seat, window, inputs, states)?)
}

// An event by the peer's call for its kind.
#[tactic(auto, unfolding(rollback::specs::Said::said_tick))]
fn carry_out(p: &mut Peer, inputs: &mut [u8], states: &mut [u8], event: Happening) -> Outcome
    ensures answer { result ≡ said is_input p.old.window (length inputs.old) (length states.old) (log_of p.old inputs.old) (event_of event.entry) }
    ensures happens { Happened court_saved p.old inputs.old states.old (event_of event.entry) p.new inputs.new states.new }
    ensures idle { ((n : ℕ) → result ≢ Taken n) → (p.new ≡ p.old) × (inputs.new ≡ inputs.old) × (states.new ≡ states.old) }
    ensures few { (n : ℕ) → result ≡ Taken n → n ≤ p.old.window }
    ensures long { writes (event_of event.entry) result ≡ true → Long inputs.new }
    ensures guessed { (xs : List ℕ) → event_of event.entry ≡ arrival xs → AsPredicted (log_of p.old inputs.old) (log_of p.new inputs.new) → ((n : ℕ) → result ≡ Taken n → n ≡ 0) × (states.new ≡ states.old) }
{
    match event {
        Happening::Tick(input) => tick::<CourtGame>(p, inputs, states, input),
        Happening::Arrival(bytes) => receive::<CourtGame>(p, inputs, states, bytes),
    }
}

// Whether an event has the packet written that the peer sends: a tick that was not refused.
fn is_told(event: Happening, outcome: Outcome) -> bool
    ensures { result ≡ writes (event_of event.entry) outcome }
{
    matches!(
        (event, outcome),
        (Happening::Tick(_), Outcome::Taken(_) | Outcome::Lost)
    )
}

// Writes the packet that the peer sends, and hands back its length. There is room for the longest.
fn write_packet(p: &Peer, inputs: &[u8], out: &mut [u8; PACKET_LENGTH]) -> usize
    requires { Long inputs.now }
    ensures length { result ≡ message_length (sends (log_of p.now inputs.now)) }
    ensures bytes { out.new ≡ packet_over true (sends (log_of p.now inputs.now)) out.old }
{
    outgoing(p, inputs).unwrap().write(out).unwrap()
}

// One event. After a tick, also after one that is lost, the packet that the peer sends is written.
pub fn happen(
    p: &mut Peer,
    inputs: &mut [u8],
    states: &mut [u8],
    event: Happening,
    out: &mut [u8; PACKET_LENGTH],
) -> Answer
    ensures answer { result.outcome ≡ said is_input p.old.window (length inputs.old) (length states.old) (log_of p.old inputs.old) (event_of event.entry) }
    ensures happens { Happened court_saved p.old inputs.old states.old (event_of event.entry) p.new inputs.new states.new }
    ensures row { (seat : At) (window : ℕ) (es : List Event) → After seat window es (memory p.old inputs.old states.old) → After seat window (es ++ event_of event.entry ∷ []) (memory p.new inputs.new states.new) }
    ensures idle { ((n : ℕ) → result.outcome ≢ Taken n) → (p.new ≡ p.old) × (inputs.new ≡ inputs.old) × (states.new ≡ states.old) }
    ensures stays { (seat : At) → Stays court_game seat (log_of p.old inputs.old) (log_of p.new inputs.new) }
    ensures few { (n : ℕ) → result.outcome ≡ Taken n → n ≤ p.old.window }
    ensures guessed { (xs : List ℕ) → event_of event.entry ≡ arrival xs → AsPredicted (log_of p.old inputs.old) (log_of p.new inputs.new) → ((n : ℕ) → result.outcome ≡ Taken n → n ≡ 0) × (states.new ≡ states.old) }
    ensures sent { result.sent ≡ sent (writes (event_of event.entry) result.outcome) (sends (log_of p.new inputs.new)) }
    ensures packet { out.new ≡ packet_over (writes (event_of event.entry) result.outcome) (sends (log_of p.new inputs.new)) out.old }
    ensures own { (seat : At) (window : ℕ) (es : List Event) → After seat window es (memory p.old inputs.old states.old) → WritesOwn window (es ++ event_of event.entry ∷ []) (writes (event_of event.entry) result.outcome) out.old result.sent out.new }
{
    let outcome = carry_out(p, inputs, states, event);
    let sent = if is_told(event, outcome) {
        Some(write_packet(p, inputs, out))
    } else {
        None
    };
    Answer { outcome, sent }
}

// Draws what the peer shows: the plain game of the court with its own inputs and the other's, those that have not come predicted.
// Nothing else changes.
pub fn draw(p: &Peer, states: &[u8], picture: &mut [u8]) -> Result<(), Refused>
    ensures answer { result ≡ said_drawn p.now.window (length states.now) (length picture.old) }
    ensures behind { drop 19200 picture.new ≡ drop 19200 picture.old }
    ensures idle { is_err result ≡ true → picture.new ≡ picture.old }
    ensures some { OnOk result ((s : State) × InCourt s × (picture.new ≡ picture_of s ++ drop 19200 picture.old)) }
    ensures stands { (seat : At) (window : ℕ) (log : Log) (inputs : List ℕ) → StandsFor court_saved seat window log (memory p.now inputs states.now) → is_ok result ≡ true → picture.new ≡ picture_of (shows court_game seat log) ++ drop 19200 picture.old }
    ensures row { (seat : At) (window : ℕ) (es : List Event) (inputs : List ℕ) → After seat window es (memory p.now inputs states.now) → is_ok result ≡ true → picture.new ≡ picture_of (shows court_game seat (log_after window es)) ++ drop 19200 picture.old }
{
    let game: CourtGame = shown(p, states)?;
    Ok(picture::draw(game.court, picture)?)
}

/// Writes the sound of the last frame of what the peer shows: 1,600 bytes. Nothing else changes.
pub fn hand_out(p: &Peer, states: &[u8], sound: &mut [u8]) -> Result<(), Refused>
    ensures answer { result ≡ said_handed p.now.window (length states.now) (length sound.old) }
    ensures behind { drop 1600 sound.new ≡ drop 1600 sound.old }
    ensures idle { is_err result ≡ true → sound.new ≡ sound.old }
    ensures some { OnOk result ((t : Sounding) × IsInRange t
        × (sound.new ≡ sound_bytes t ++ drop 1600 sound.old)) }
    ensures stands { (seat : At) (window : ℕ) (log : Log) (inputs : List ℕ) →
        StandsFor court_saved seat window log (memory p.now inputs states.now) →
        is_ok result ≡ true →
        sound.new ≡ sound_bytes (shows sounding_game seat log).tone ++ drop 1600 sound.old }
    ensures row { (seat : At) (window : ℕ) (es : List Event) (inputs : List ℕ) →
        After seat window es (memory p.now inputs states.now) → is_ok result ≡ true →
        let log = log_after window es in
        sound.new ≡ sound_bytes (shows sounding_game seat log).tone ++ drop 1600 sound.old }
{
    let game: CourtGame = shown(p, states)?;
    Ok(write_samples(game.tone, sound)?)
}

// Where the peer stands.
pub fn status(p: &Peer, states: &[u8]) -> Result<Status, Refused>
    ensures answer { MatchResult result (λ _. LongStates p.now.window states.now) (λ f. (f ≡ Refused.Peer States) × (length states.now < (p.now.window + 1) * 64)) }
    ensures numbers { IfOk result (λ s. (s.frames ≡ p.now.own) × (s.confirmed ≡ min p.now.own p.now.other)) }
    ensures stands { IfOk result (λ s. (seat : At) (window : ℕ) (log : Log) (inputs : List ℕ) → StandsFor court_saved seat window log (memory p.now inputs states.now) → s ≡ status_of seat log) }
    ensures row { IfOk result (λ s. (seat : At) (window : ℕ) (es : List Event) (inputs : List ℕ) → After seat window es (memory p.now inputs states.now) → s ≡ status_of seat (log_after window es)) }
{
    let game: CourtGame = shown(p, states)?;
    Ok(Status {
        frames: p.own,
        confirmed: p.confirmed(),
        score: game.court.state.score,
    })
}
