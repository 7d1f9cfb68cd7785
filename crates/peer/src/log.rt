// The input log over lent memory: own inputs, and from the middle on the other's.
// What is required here, callers of this repository are proved to see to.
ghost use Rattle.std.specs.Prelude.{◌≡◌, ◌+◌, ◌-◌, ◌<◌, ◌≤◌, [], length, drop, if◌then◌else◌, Ok, nat_lt, slice_index};
ghost use Rattle.packet.specs.Wire.{Proper, message_of};
ghost use Rattle.peer.specs.Lent.{Long, Untouched, log_of, with_own, other_at};
ghost use Rattle.peer.specs.Peers.{heard};

use crate::numbers::Peer;
use game::plain::MOST_FRAMES;
use packet::Packet;

// As many inputs as a seat has at most, and where the other's begin.
pub const HALF: usize = MOST_FRAMES;

// The last of the inputs that came, or 0.
fn last_of(came: &[u8]) -> u8
    ensures { result ≡ slice_index came.now (length came.now - 1) }
{
    came.last().copied().unwrap_or(0)
}

// The other's input at a frame, of which so many came: what came, else the last that came, or 0.
pub fn other_input(inputs: &[u8], came: usize, frame: usize) -> u8
    requires { (Long inputs.now) × ((came ≤ 1000000) × (frame < 1000000)) }
    ensures { result ≡ other_at came inputs.now frame }
{
    let other = &inputs[HALF..HALF + came];
    other.get(frame).copied().unwrap_or(last_of(other))
}

// One input more of its own. No other byte changes.
pub fn push_own(p: &mut Peer, inputs: &mut [u8], input: u8)
    requires long { Long inputs.old }
    requires few { p.old.own < 1000000 }
    requires near { p.old.own < p.old.other + p.old.window }
    ensures window { p.new.window ≡ p.old.window }
    ensures seat { p.new.seat ≡ p.old.seat }
    ensures own { p.new.own ≡ p.old.own + 1 }
    ensures other { p.new.other ≡ p.old.other }
    ensures log { log_of p.new inputs.new ≡ with_own (log_of p.old inputs.old) input }
    ensures untouched { Untouched p.old inputs.old p.new inputs.new }
{
    inputs[p.own] = input;
    p.own += 1;
}

// The part of a packet's inputs that is new to a peer which has so many, if it joins on.
pub fn fresh(came: usize, first: usize, inputs: &[u8]) -> &[u8]
    requires { (came ≤ 1000000) × (first + length inputs.now ≤ 1000000) }
    ensures value { result.now ≡ (if nat_lt came first then [] else drop (came - first) inputs.now) }
    ensures fits { came + length result.now ≤ 1000000 }
{
    let Some(known) = came.checked_sub(first) else {
        return &[];
    };
    inputs.get(known..).unwrap_or(&[])
}

// Takes in a packet's inputs and its acknowledgement. Of inputs that came before, the first that came count.
// No byte changes but those of new inputs.
pub fn join(p: &mut Peer, inputs: &mut [u8], packet: Packet)
    requires long { Long inputs.old }
    requires proper { Proper p.old.own (message_of packet) }
    ensures window { p.new.window ≡ p.old.window }
    ensures seat { p.new.seat ≡ p.old.seat }
    ensures own { p.new.own ≡ p.old.own }
    ensures more { p.old.other ≤ p.new.other }
    ensures log { log_of p.new inputs.new ≡ heard (log_of p.old inputs.old) (Ok (message_of packet.entry)) }
    ensures untouched { Untouched p.old inputs.old p.new inputs.new }
{
    // The check proves that these casts lose nothing: `try_from` would bring errors that cannot come.
    let new = fresh(p.other, packet.first as usize, packet.inputs);
    let at = HALF + p.other;
    inputs[at..at + new.len()].copy_from_slice(new);
    p.other += new.len();
    p.acked = p.acked.max(packet.ack as usize);
}
