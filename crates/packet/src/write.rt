// A packet as bytes, in lent memory.
ghost use Rattle.std.specs.Prelude.{◌≡◌, ℕ, ◌^◌, ◌<◌, ◌≤◌, ◌∷◌, ◌++◌, length, take, drop, IfOk, Ok};
ghost use Rattle.byte_numbers.specs.Little.{little};
ghost use Rattle.packet.specs.Wire.{Proper, message_of, reading, writing, written_over};

use crate::fault::Unwritten;
use crate::message::Packet;
use crate::{ACK_AT, COUNT_AT, FIRST_AT, INPUTS_AT, MARK, MOST_INPUTS};
use byte_numbers::LittleEndian;

// The fields before the inputs.
fn put_head(out: &mut [u8], first: u32, count: u8, ack: u32)
    requires { 10 ≤ length out.old }
    ensures { out.new ≡ 72 ∷ (little 4 first ++ (count ∷ (little 4 ack ++ drop 10 out.old))) }
{
    out[0] = MARK;
    first.put(out, FIRST_AT);
    out[COUNT_AT] = count;
    ack.put(out, ACK_AT);
}

impl Packet<'_> {
    // Writes the packet's bytes and hands back how many they are. What lies behind them stays, and a refusal changes nothing.
    // A peer that takes such a packet reads it from those bytes.
    pub fn write(self, out: &mut [u8]) -> Result<usize, Unwritten>
        ensures value { result ≡ writing (message_of self.entry) (length out.old) }
        ensures read { IfOk result (λ n. (own : ℕ) → own < 2 ^ 32 → Proper own (message_of self.entry) → reading own (take n out.new) ≡ Ok (message_of self.entry)) }
        ensures bytes { out.new ≡ written_over (message_of self.entry) out.old }
    {
        let count = match u8::try_from(self.inputs.len()) {
            Ok(count) if count <= MOST_INPUTS => count,
            _ => return Err(Unwritten::Overfull),
        };
        let end = INPUTS_AT + usize::from(count);
        if out.len() < end {
            return Err(Unwritten::NoRoom);
        }
        put_head(out, self.first, count, self.ack);
        out[INPUTS_AT..end].copy_from_slice(self.inputs);
        Ok(end)
    }
}
