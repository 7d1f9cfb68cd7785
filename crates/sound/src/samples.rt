// A frame's samples, written into lent memory.
ghost use Rattle.std.specs.Prelude.{◌≡◌, ◌+◌, ◌*◌, ◌/◌, ◌^◌, ◌<◌, ◌≤◌, ◌++◌, length, drop, if◌then◌else◌, Ok, Err, Some, nat_le};
ghost use Rattle.sound.specs.Refusals.{refusal_number, refusal_place, refusal_text};
ghost use Rattle.sound.specs.Sound.{level_of, sample_bytes, sample_of, sound_bytes};
ghost use Rattle.sound.specs.Sounding.{sounding};
ghost use Rattle.sound.specs.Tones.{turns_of};

use crate::tone::Tone;
use crate::{FRAME_BYTES, LOUD, RATE, SAMPLE_BYTES, SAMPLES_PER_FRAME};
use court::Cue;
use std::error::Error;
use std::fmt;

/// Why no samples were written.
#[derive(Clone, Copy, PartialEq, Eq, Debug)]
pub enum Refused {
    TooShort,
}

impl Refused {
    pub fn number(self) -> u8
        ensures { result ≡ refusal_number self }
    {
        match self {
            Refused::TooShort => 5,
        }
    }

    pub fn place(self) -> usize
        ensures { result ≡ refusal_place self }
    {
        match self {
            Refused::TooShort => 6,
        }
    }
}

impl fmt::Display for Refused {
    ghost output = { λ refused. Some (refusal_text refused) };

    fn fmt<W: fmt::Write>(&self, f: &mut fmt::Formatter<W>) -> fmt::Result {
        write!(f, "refused {} at {}", self.number(), self.place())
    }
}

impl Error for Refused {}

// How often a tone of a kind turns in a second.
fn turns(kind: Cue) -> u32
    ensures value { result ≡ turns_of kind }
    ensures few { result ≤ 440 }
{
    match kind {
        Cue::Nothing => 0,
        Cue::Paddle => 440,
        Cue::Wall => 220,
        Cue::Point => 110,
    }
}

fn level(half_turn: u32) -> i16
    ensures { result ≡ level_of half_turn }
{
    if half_turn % 2 == 0 { LOUD } else { -LOUD }
}

// Sample j of a frame.
#[tactic(auto, unfolding(crate::specs::Sound::tone_sample))]
fn sample(tone: Tone, j: usize) -> i16
    requires { j < SAMPLES_PER_FRAME }
    ensures { result ≡ sample_of (sounding tone) j }
{
    let i = (SAMPLES_PER_FRAME * usize::from(tone.age) + j) as u32;
    match tone.kind {
        Cue::Nothing => 0,
        kind => level(2 * turns(kind) * i / RATE),
    }
}

// The same in bytes.
fn sample_in_bytes(tone: Tone, j: usize) -> [u8; SAMPLE_BYTES]
    requires { j < SAMPLES_PER_FRAME }
    ensures { result ≡ sample_bytes (sample_of (sounding tone) j) }
{
    sample(tone, j).to_le_bytes()
}

/// Writes a frame's samples over the first bytes of `part`, and leaves those after them. A shorter
/// slice is refused and stays as it was.
pub fn write_samples(tone: Tone, part: &mut [u8]) -> Result<(), Refused>
    ensures value { result ≡
        (if nat_le FRAME_BYTES (length part.old) then Ok tt else Err Refused.TooShort) }
    ensures samples { part.new ≡
        (if nat_le FRAME_BYTES (length part.old)
        then sound_bytes (sounding tone) ++ drop FRAME_BYTES part.old
        else part.old) }
{
    if part.len() < FRAME_BYTES {
        return Err(Refused::TooShort);
    }
    for j in 0..SAMPLES_PER_FRAME {
        let at = SAMPLE_BYTES * j;
        part[at..at + SAMPLE_BYTES].copy_from_slice(&sample_in_bytes(tone, j));
    }
    Ok(())
}
