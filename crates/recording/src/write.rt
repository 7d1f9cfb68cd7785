// A recording as bytes, in lent memory.
ghost use Rattle.std.specs.Prelude.{◌≡◌, ◌*◌, ◌/◌, ◌≤◌, min, ◌∷◌, ◌++◌, length, take, drop, IfOk};
ghost use Rattle.byte_numbers.specs.Little.{little};
ghost use Rattle.peer.specs.Lent.{Long, log_of};
ghost use Rattle.peer.specs.Peers.{confirmed};
ghost use Rattle.recording.specs.Games.{HoldsGame};
ghost use Rattle.recording.specs.Matches.{frame_bytes, marks, match_of};
ghost use Rattle.recording.specs.Writing.{writing, written_over};

use crate::layout::{COUNT_AT, EVERY, FRAMES_AT, MARK, WINDOW_AT, length_by};
use byte_numbers::LittleEndian;
use court_game::snapshot::save_state;
use court_game::sounding::CourtGame;
use game::rules::Game;
use game::saved::STATE_BYTES;
use peer::Peer;
use peer::log::HALF;
use peer::memory::check_inputs;

// The fields before the frames.
fn put_head(out: &mut [u8], window: u8, count: u32)
    requires { length out.old ≡ 8 }
    ensures { out.new ≡ 82 ∷ (69 ∷ (67 ∷ (window ∷ little 4 count))) }
{
    out[..WINDOW_AT].copy_from_slice(&MARK);
    out[WINDOW_AT] = window;
    count.put(out, COUNT_AT);
}

// The frames of both seats, a byte each.
fn put_frames(left: &[u8], right: &[u8], frames: &mut [u8])
    requires { (length left.now ≡ length frames.old) × (length right.now ≡ length frames.old) }
    ensures { frames.new ≡ frame_bytes left.now right.now }
{
    // By places: of a slice that `iter_mut` lends to a `zip` a proof knows afterwards only the length.
    for (k, (a, b)) in left.iter().zip(right).enumerate() {
        frames[k] = *a % 16 + 16 * (*b % 16);
    }
}

// The state after every 600th of the frames.
fn put_states(frames: &[u8], states: &mut [u8])
    requires { 64 * (length frames.now / 600) ≤ length states.old }
    ensures { states.new ≡ marks frames.now (length frames.now / 600) ++ drop (64 * (length frames.now / 600)) states.old }
{
    let mut state = CourtGame::start();
    // By places: of a slice that `chunks_exact_mut` lent a proof knows afterwards only the length.
    for (j, part) in frames.chunks_exact(EVERY).enumerate() {
        state = game::plain::play_frames(state, part);
        let at = STATE_BYTES * j;
        save_state(state, &mut states[at..at + STATE_BYTES]);
    }
}

// Why a recording is not written.
#[derive(Clone, Copy, PartialEq, Eq, Debug)]
pub enum Unwritten {
    // Lent memory for inputs that is too short.
    Inputs,
    // The lent slice is too short for it.
    NoRoom,
}

// The frames of which a peer has both inputs.
fn put_confirmed(peer: &Peer, inputs: &[u8], frames: &mut [u8])
    requires { (Long inputs.now) × (length frames.old ≡ min peer.now.own peer.now.other) }
    ensures { frames.new ≡ (match_of peer.now.seat peer.now.window (log_of peer.now inputs.now)).frames }
{
    let (own, other) = inputs.split_at(HALF);
    let count = frames.len();
    let (left, right) = peer.seat.in_order(&own[..count], &other[..count]);
    put_frames(left, right, frames);
}

// Writes the recording of what a peer is sure of, and hands back its length. What lies behind it stays, and a refusal changes
// nothing. Whatever events came, what is written is read, and is the game that the peer is sure of.
#[tactic(auto, using(crate::proofs::Whole::confirmed_is, crate::proofs::Whole::frames_long))]
pub fn write(p: &Peer, inputs: &[u8], out: &mut [u8]) -> Result<usize, Unwritten>
    ensures answer { result ≡ writing (length inputs.now) (confirmed (log_of p.now inputs.now)) (length out.old) }
    ensures bytes { out.new ≡ written_over (length inputs.now) (match_of p.now.seat p.now.window (log_of p.now inputs.now)) out.old }
    ensures game { IfOk result (λ n. HoldsGame p.now.seat p.now.window (log_of p.now inputs.now) (take n out.new)) }
{
    check_inputs(inputs).map_err(|_| Unwritten::Inputs)?;
    let count = p.confirmed();
    let end = length_by(count);
    if out.len() < end {
        return Err(Unwritten::NoRoom);
    }
    let (head, rest) = out.split_at_mut(FRAMES_AT);
    let (frames, states) = rest.split_at_mut(count);
    // The check proves that these casts lose nothing: `try_from` would bring errors that cannot come.
    put_head(head, p.window as u8, count as u32);
    put_confirmed(p, inputs, frames);
    put_states(frames, states);
    Ok(end)
}
