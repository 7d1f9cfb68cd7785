// The sound of chosen frames: the tone of each, and a checksum of its samples in bytes; and the
// heads of WAV files. What it must print was worked out from the rules, apart from this code. Rests
// on court and sound.
#![tactic(auto)]

ghost use Rattle.std.specs.Prelude.{◌≤◌};

use court::Cue;
use sound::wav::MOST_FRAMES;
use sound::{FRAME_BYTES, Tone, wav_header, write_samples};

// What stands in lent memory before samples are written.
const BEFORE: u8 = 9;

// FNV-1a, of 32 bits.
fn checksum(bytes: &[u8]) -> u32 {
    bytes.iter().fold(2166136261, |sum, b| {
        (sum ^ u32::from(*b)).wrapping_mul(16777619)
    })
}

fn cue_of(letter: u8) -> Cue {
    match letter {
        b'p' => Cue::Paddle,
        b'w' => Cue::Wall,
        b't' => Cue::Point,
        _ => Cue::Nothing,
    }
}

// The sound of frames that give these cues, a line for each frame.
fn show(rt: &HostRuntime, cues: &[u8]) -> anyhow::Result<()> {
    let mut tone = Tone::silent();
    let mut bytes = vec![in rt.alloc(); BEFORE; FRAME_BYTES]?;
    for letter in cues {
        tone = tone.after(cue_of(*letter));
        let [kind, age] = tone.to_bytes();
        let _ = write_samples(tone, bytes.as_mut_slice());
        println!(rt; "{kind} {age} {}", checksum(bytes.as_slice()))?;
    }
    Ok(())
}

// Writes into memory of a length, and prints whether it was refused and what the memory then holds.
fn show_in(rt: &HostRuntime, name: &str, length: usize) -> anyhow::Result<()> {
    let mut bytes = vec![in rt.alloc(); BEFORE; length]?;
    print!(rt; "{name}:")?;
    if let Err(e) = write_samples(Tone::silent().after(Cue::Wall), bytes.as_mut_slice()) {
        print!(rt; " {e}")?;
    }
    let before = bytes.iter().filter(|b| **b == BEFORE).count();
    println!(rt; " before {before} checksum {}", checksum(bytes.as_slice()))?;
    Ok(())
}

fn show_header(rt: &HostRuntime, frames: u32) -> anyhow::Result<()>
    requires { frames ≤ MOST_FRAMES }
{
    print!(rt; "{frames}:")?;
    for b in wav_header(frames) {
        print!(rt; " {b}")?;
    }
    println!(rt;)?;
    Ok(())
}

// How many of all pairs of bytes are those of a tone.
fn tones() -> u32 {
    let mut count: u32 = 0;
    for kind in 0..=255u8 {
        for age in 0..=255u8 {
            if Tone::from_bytes([kind, age]).to_bytes() == [kind, age] {
                count = count.wrapping_add(1);
            }
        }
    }
    count
}

fn main(rt: HostRuntime) -> anyhow::Result<()> {
    show(&rt, b".p......w......t..............................")?;
    show(&rt, b"t...p..pw.....t.w.......")?;
    show_in(&rt, "too short", FRAME_BYTES - 1)?;
    show_in(&rt, "empty", 0)?;
    show_in(&rt, "longer", FRAME_BYTES + 3)?;
    show_header(&rt, 0)?;
    show_header(&rt, 1)?;
    show_header(&rt, 6728)?;
    show_header(&rt, 1_000_000)?;
    show_header(&rt, MOST_FRAMES)?;
    println!(&rt; "tones {}", tones())?;
    Ok(())
}
