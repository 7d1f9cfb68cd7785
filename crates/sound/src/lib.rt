// What a frame gives to hear, as samples: a cue begins a tone, and a tone is 800 samples in each of
// its frames. Rests on court.
#![tactic(auto)]

pub mod samples;
pub mod statements;
pub mod tone;
pub mod wav;

pub use samples::{Refused, write_samples};
pub use tone::Tone;
pub use wav::wav_header;

/// Samples a second.
pub const RATE: u32 = 48000;

/// Frames a second are 60, so that each has this many samples.
pub const SAMPLES_PER_FRAME: usize = 800;

/// Bytes of a sample.
pub const SAMPLE_BYTES: usize = 2;

/// Bytes of a frame's samples.
pub const FRAME_BYTES: usize = SAMPLE_BYTES * SAMPLES_PER_FRAME;

/// The highest sample of a tone. Its lowest is as far below 0.
pub const LOUD: i16 = 8192;
