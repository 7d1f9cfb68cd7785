// Bytes as a packet, or the fault at the lowest place.
ghost use Rattle.std.specs.Prelude.{◌≡◌, IfOk, Ok, Err, MatchResult, nat_lt};
ghost use Rattle.std.specs.List.{position};
ghost use Rattle.packet.specs.Wire.{Proper, message_of, message_bytes, first_in, count_in, ack_in, inputs_in, start_checked, rest_checked, reading, read_as};

use crate::fault::Fault;
use crate::message::Packet;
use crate::{ACK_AT, COUNT_AT, FIRST_AT, INPUTS_AT, LARGEST_INPUT, MARK, MOST_INPUTS};
use byte_numbers::LittleEndian;
use game::plain::MOST_FRAMES;
use std::cmp::Ordering;

// Where the first byte stands that is no input.
fn find_bad(inputs: &[u8]) -> Option<usize>
    ensures { result ≡ position (λ a. nat_lt 15 a) inputs.now }
{
    inputs.iter().position(|input| *input > LARGEST_INPUT)
}

// The first frame and the number of inputs, which stand behind the mark.
#[tactic(auto, unfolding(crate::specs::Wire::start_checked))]
fn read_start(packet: &[u8]) -> Result<(u32, u8), Fault>
    ensures { MatchResult result (λ r. (start_checked packet.now ≡ Ok tt) × (r.0 ≡ first_in packet.now) × (r.1 ≡ count_in packet.now)) (λ f. start_checked packet.now ≡ Err f) }
{
    let cut = Fault::CutShort(packet.len());
    let mark = *packet.first().ok_or(cut)?;
    if mark != MARK {
        return Err(Fault::NoMark);
    }
    let count = *packet.get(COUNT_AT).ok_or(cut)?;
    let first = u32::get(packet, FIRST_AT);
    // There is no `From` of a usize for a u64.
    if u64::from(first) + u64::from(count) > MOST_FRAMES as u64 {
        return Err(Fault::PastEnd);
    }
    if count > MOST_INPUTS {
        return Err(Fault::TooMany);
    }
    Ok((first, count))
}

// The acknowledgement and the inputs, so many, of a packet whose start is right.
#[tactic(auto, using(crate::proofs::Firsts::inputs_there), unfolding(crate::specs::Wire::rest_checked))]
fn read_rest(packet: &[u8], own: u32, count: u8) -> Result<(u32, &[u8]), Fault>
    requires { count ≡ count_in packet.now }
    ensures { MatchResult result (λ r. (rest_checked own packet.now ≡ Ok tt) × (r.0 ≡ ack_in packet.now) × (r.1.now ≡ inputs_in packet.now)) (λ f. rest_checked own packet.now ≡ Err f) }
{
    if packet.len() < INPUTS_AT {
        return Err(Fault::CutShort(packet.len()));
    }
    let ack = u32::get(packet, ACK_AT);
    if ack > own {
        return Err(Fault::Unmade);
    }
    let end = INPUTS_AT + usize::from(count);
    let inputs = &packet[INPUTS_AT..packet.len().min(end)];
    if let Some(bad) = find_bad(inputs) {
        return Err(Fault::BadInput(INPUTS_AT + bad));
    }
    match packet.len().cmp(&end) {
        Ordering::Less => Err(Fault::CutShort(packet.len())),
        Ordering::Equal => Ok((ack, inputs)),
        Ordering::Greater => Err(Fault::TooLong(end)),
    }
}

impl<'a> Packet<'a> {
    // Bytes as a packet for a peer that has made so many inputs; or their fault at the lowest place.
    // A packet that is taken is written as those very bytes.
    #[tactic(auto, unfolding(crate::specs::Wire::reading))]
    pub fn read(packet: &'a [u8], own: u32) -> Result<Packet<'a>, Fault>
        ensures value { read_as result ≡ reading own packet.now }
        ensures proper { IfOk result (λ p. Proper own (message_of p)) }
        ensures back { IfOk result (λ p. message_bytes (message_of p) ≡ packet.now) }
    {
        let (first, count) = read_start(packet)?;
        let (ack, inputs) = read_rest(packet, own, count)?;
        Ok(Packet { first, ack, inputs })
    }
}
