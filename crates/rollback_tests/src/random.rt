// Random events by a small seeded generator: packets right and wrong.
use std::alloc::Global;
use std::test::Fail;

pub(crate) fn next(seed: u32) -> u32 {
    seed.wrapping_mul(1_664_525).wrapping_add(1_013_904_223)
}

// A number below `most`, from the upper bits, which are the better ones; 0 where there is none.
pub(crate) fn pick(seed: u32, most: u8) -> u8 {
    let rest = (seed >> 16).checked_rem(u32::from(most)).unwrap_or(0);
    u8::try_from(rest).unwrap_or(0)
}

// A packet's bytes, its inputs often as they are predicted.
fn packet(heap: Global, first: usize, ack: usize, last: u8, seed: u32) -> Result<Vec<u8>, Fail> {
    let count = pick(seed, 5);
    let mut bytes = Vec::new(heap);
    bytes.push(b'H')?;
    bytes.extend_from_slice(&u32::try_from(first)?.to_le_bytes())?;
    bytes.push(count)?;
    bytes.extend_from_slice(&u32::try_from(ack)?.to_le_bytes())?;
    let mut input = last;
    let mut s = seed;
    for _ in 0..count {
        s = next(s);
        if pick(s, 2) == 0 {
            s = next(s);
            input = pick(s, 16);
        }
        bytes.push(input)?;
    }
    Ok(bytes)
}

// Bytes for a peer that has so many inputs of its own and of the other: mostly a packet that joins on, with an overlap that may
// contradict what came; else one with a gap, a wrong acknowledgement, an input too large, or of a wrong length.
pub(crate) fn bytes_for(
    heap: Global,
    own: usize,
    other: usize,
    last: u8,
    seed: u32,
) -> Result<Vec<u8>, Fail> {
    let s = next(seed);
    let back = usize::from(pick(next(s), 4));
    let ack = own - own.min(usize::from(pick(s, 5)));
    match pick(seed, 10) {
        0 => packet(heap, other.saturating_add(1 + back), ack, last, s),
        1 => packet(heap, other, own.saturating_add(1), last, s),
        2 => packet(heap, other, ack, 16, s),
        3 => {
            let mut bytes = packet(heap, other, ack, last, s)?;
            bytes.push(0)?;
            Ok(bytes)
        }
        4 => {
            let mut bytes = packet(heap, other, ack, last, s)?;
            bytes.pop();
            Ok(bytes)
        }
        _ => packet(heap, other.saturating_sub(back), ack, last, s),
    }
}
