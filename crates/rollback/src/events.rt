// What a peer does: it begins, ticks and takes in packets. The memory that it is lent is tested at each call.
// The numbers, the inputs and the states are passed one by one: all are lent anew at each call, so a struct of the three would be put
// together at each, and no caller would write less.
ghost use Rattle.std.specs.Prelude.{◌≡◌, ℕ, ◌+◌, ◌<◌, ◌≤◌, true, length, is_err, OnOk, IfOk, IfErr, Ok, ◌≢◌};
ghost use Rattle.packet.specs.Wire.{Proper, message_of, reading};
ghost use Rattle.rollback.specs.declared.outcome.Outcome.TheVariants.{Taken, Refused};
ghost use Rattle.peer.specs.Lent.{Untouched, log_of, with_own};
ghost use Rattle.peer.specs.Peers.{tick as ticked, arrival, AsPredicted};
ghost use Rattle.rollback.specs.Said.{as_checked, said_tick, said_arrival};
ghost use Rattle.peer.specs.Refusals.{begin_checked};
ghost use Rattle.rollback.specs.Saved.{Roomy, Behind, Kept, Begun, Happened};

use crate::frames::Going;
use crate::incoming::take_in;
use crate::memory::check_memory;
use crate::outcome::Outcome;
use crate::slots::save_at;
use game::saved::SavedGame;
use game::seat::Seat;
use packet::Packet;
use peer::log::push_own;
use peer::numbers::check_window;
use peer::{Peer, Refusal};

// Whether a peer may begin, or why not: the window, the lent inputs or the lent states.
#[tactic(auto, unfolding(peer::specs::Refusals::begin_checked))]
pub fn check_begin(window: usize, inputs: &[u8], states: &[u8]) -> Result<(), Refusal>
    ensures answer { result ≡ begin_checked window (length inputs.now) (length states.now) }
    ensures within { result ≡ Ok tt → (1 ≤ window) × (window ≤ 60) }
{
    check_window(window)?;
    check_memory(window, inputs, states)
}

// A new peer, or why there is none: the window, the lent inputs or the lent states. The state that the game starts with is saved
// in the first slot; a refusal changes nothing.
#[tactic(auto, unfolding(peer::specs::Refusals::begin_checked))]
pub fn begin<G: SavedGame>(
    seat: Seat,
    window: usize,
    inputs: &[u8],
    states: &mut [u8],
) -> Result<Peer, Refusal>
    ensures answer { as_checked result ≡ begin_checked window (length inputs.now) (length states.old) }
    ensures begun { IfOk result (λ p. Begun G.saved seat window p inputs.now states.new) }
    ensures behind { Behind 1 states.old states.new }
    ensures idle { is_err result ≡ true → states.new ≡ states.old }
{
    let p = Peer::new(seat, window)?;
    check_memory(window, inputs, states)?;
    save_at(states, 0, G::start());
    Ok(p)
}

// One frame more, with an input of its own. Hands back how many frames it played.
fn go_on<G: SavedGame>(p: &mut Peer, inputs: &mut [u8], states: &mut [u8], input: u8) -> usize
    requires roomy { Roomy p.old.window inputs.old states.old }
    requires few { p.old.own < 1000000 }
    requires near { p.old.own < p.old.other + p.old.window }
    ensures window { p.new.window ≡ p.old.window }
    ensures seat { p.new.seat ≡ p.old.seat }
    ensures log { log_of p.new inputs.new ≡ with_own (log_of p.old inputs.old) input }
    ensures untouched { Untouched p.old inputs.old p.new inputs.new }
    ensures behind { Behind (p.old.window + 1) states.old states.new }
    ensures keeps { Kept G.saved p.old inputs.old states.old → Kept G.saved p.new inputs.new states.new }
    ensures count { result ≡ 1 }
{
    let mut game: Going<G> = Going::from_saved(p, states, p.own);
    push_own(p, inputs, input);
    game.play_frame(p, inputs, states);
    game.played
}

// Whether a tick may be taken, or why it is refused: the lent memory, then the input.
#[tactic(auto, unfolding(crate::specs::Said::said_tick))]
fn check_tick<G: SavedGame>(
    p: &Peer,
    inputs: &[u8],
    states: &[u8],
    input: u8,
) -> Result<(), Refusal>
    ensures taken { OnOk result ((Roomy p.now.window inputs.now states.now) × (G.saved.fits input ≡ true)) }
    ensures refused { IfErr result (λ f. Refused f ≡ said_tick G.saved.fits p.now.window (length inputs.now) (length states.now) (log_of p.now inputs.now) input) }
{
    check_memory(p.window, inputs, states)?;
    if !G::fits(input) {
        return Err(Refusal::Input);
    }
    Ok(())
}

// A frame's time, with the input at the peer's own seat.
#[tactic(auto, using(peer::proofs::Logs::goes_on_is, crate::proofs::Taken::is_taken), unfolding(crate::specs::Said::said_tick, peer::specs::Peers::event))]
pub fn tick<G: SavedGame>(p: &mut Peer, inputs: &mut [u8], states: &mut [u8], input: u8) -> Outcome
    ensures answer { result ≡ said_tick G.saved.fits p.old.window (length inputs.old) (length states.old) (log_of p.old inputs.old) input }
    ensures happens { Happened G.saved p.old inputs.old states.old (ticked input) p.new inputs.new states.new }
    ensures idle { ((n : ℕ) → result ≢ Taken n) → (p.new ≡ p.old) × (inputs.new ≡ inputs.old) × (states.new ≡ states.old) }
    ensures few { (n : ℕ) → result ≡ Taken n → n ≤ p.old.window }
{
    match check_tick::<G>(p, inputs, states, input) {
        Ok(()) if p.may_play() => Outcome::Taken(go_on::<G>(p, inputs, states, input)),
        Ok(()) => Outcome::Lost,
        Err(refusal) => Outcome::Refused(refusal),
    }
}

// The packet that bytes are, or why they are refused: the lent memory, then the bytes.
#[tactic(auto, using(peer::proofs::Logs::own_long), unfolding(crate::specs::Said::said_arrival))]
fn read_packet<'a>(
    p: &Peer,
    inputs: &[u8],
    states: &[u8],
    bytes: &'a [u8],
) -> Result<Packet<'a>, Refusal>
    ensures memory { OnOk result (Roomy p.now.window inputs.now states.now) }
    ensures taken { IfOk result (λ m. (Ok (message_of m) ≡ reading p.now.own bytes.now) × Proper p.now.own (message_of m)) }
    ensures refused { IfErr result (λ f. Refused f ≡ said_arrival p.now.window (length inputs.now) (length states.now) (log_of p.now inputs.now) bytes.now) }
{
    check_memory(p.window, inputs, states)?;
    // No conversion that can fail, since a peer has at most 1,000,000 inputs.
    Packet::read(bytes, p.own as u32).map_err(Refusal::Packet)
}

// Bytes that came from the other.
#[tactic(auto, using(peer::proofs::Logs::own_long, crate::proofs::Taken::is_taken), unfolding(crate::specs::Said::said_arrival, peer::specs::Peers::event))]
pub fn receive<G: SavedGame>(
    p: &mut Peer,
    inputs: &mut [u8],
    states: &mut [u8],
    bytes: &[u8],
) -> Outcome
    ensures answer { result ≡ said_arrival p.old.window (length inputs.old) (length states.old) (log_of p.old inputs.old) bytes.now }
    ensures happens { Happened G.saved p.old inputs.old states.old (arrival bytes.now) p.new inputs.new states.new }
    ensures idle { ((n : ℕ) → result ≢ Taken n) → (p.new ≡ p.old) × (inputs.new ≡ inputs.old) × (states.new ≡ states.old) }
    ensures few { (n : ℕ) → result ≡ Taken n → n ≤ p.old.window }
    ensures guessed { (n : ℕ) → result ≡ Taken n → AsPredicted (log_of p.old inputs.old) (log_of p.new inputs.new) → (n ≡ 0) × (states.new ≡ states.old) }
{
    match read_packet(p, inputs, states, bytes) {
        Ok(packet) => Outcome::Taken(take_in::<G>(p, inputs, states, packet)),
        Err(refusal) => Outcome::Refused(refusal),
    }
}
