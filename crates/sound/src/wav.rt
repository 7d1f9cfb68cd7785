// The head of a WAV file, before the samples of its frames.
ghost use Rattle.std.specs.Prelude.{◌≡◌, ◌≤◌};
ghost use Rattle.sound.specs.Wav.{wav_header_of};

use crate::{FRAME_BYTES, RATE, SAMPLE_BYTES};

/// The bytes of a WAV file before its samples.
pub const WAV_HEADER_BYTES: usize = 44;

// What the first length in the file counts besides the samples: all behind itself.
const BYTES_BEHIND_LENGTH: u32 = 36;

/// The most frames of one file: its lengths are numbers of 32 bits.
pub const MOST_FRAMES: u32 = (u32::MAX - BYTES_BEHIND_LENGTH) / FRAME_BYTES as u32;

// The format: its length, that its samples are as they are, and how they lie.
const FORMAT_BYTES: u32 = 16;

const UNCOMPRESSED: u16 = 1;

const CHANNELS: u16 = 1;

const SAMPLE_BITS: u16 = 16;

/// The head of a WAV file whose samples are those of so many frames.
pub fn wav_header(frames: u32) -> [u8; WAV_HEADER_BYTES]
    requires { frames ≤ MOST_FRAMES }
    ensures { result ≡ wav_header_of frames }
{
    let data = FRAME_BYTES as u32 * frames;
    let mut header = [0; WAV_HEADER_BYTES];
    header[0..4].copy_from_slice(b"RIFF");
    header[4..8].copy_from_slice(&(BYTES_BEHIND_LENGTH + data).to_le_bytes());
    header[8..12].copy_from_slice(b"WAVE");
    header[12..16].copy_from_slice(b"fmt ");
    header[16..20].copy_from_slice(&FORMAT_BYTES.to_le_bytes());
    header[20..22].copy_from_slice(&UNCOMPRESSED.to_le_bytes());
    header[22..24].copy_from_slice(&CHANNELS.to_le_bytes());
    header[24..28].copy_from_slice(&RATE.to_le_bytes());
    header[28..32].copy_from_slice(&(SAMPLE_BYTES as u32 * RATE).to_le_bytes());
    header[32..34].copy_from_slice(&(SAMPLE_BYTES as u16).to_le_bytes());
    header[34..36].copy_from_slice(&SAMPLE_BITS.to_le_bytes());
    header[36..40].copy_from_slice(b"data");
    header[40..44].copy_from_slice(&data.to_le_bytes());
    header
}
