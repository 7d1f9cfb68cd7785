// The sound of the court's game, frame after frame.
ghost use Rattle.std.specs.Prelude.{◌≡◌, ◌≤◌, ◌++◌, length, map, IfOk, OnOk, OnErr};
ghost use Rattle.court_game.specs.Sounds.{game_sound};
ghost use Rattle.game.specs.Plain.{seat_0, seat_1};
ghost use Rattle.sound.specs.Sound.{sound_bytes};
ghost use Rattle.sound.specs.Sounding.{sounding};
ghost use Rattle.sound.specs.Wav.{wav_header_of};

use crate::sounding::CourtGame;
use game::plain::play_frames;
use game::rules::Game;
use sound::{FRAME_BYTES, Tone, wav_header, write_samples};
use std::alloc::{AllocError, Global};

/// Puts a frame's samples behind those that are there, whole or not at all.
pub fn keep_sound(tone: Tone, samples: &mut Vec<u8>) -> Result<(), AllocError>
    ensures kept { OnOk result
        (samples.new.items ≡ samples.old.items ++ sound_bytes (sounding tone)) }
    ensures idle { OnErr result (samples.new.items ≡ samples.old.items) }
{
    let mut frame = [0; FRAME_BYTES];
    write_samples(tone, &mut frame).unwrap();
    samples.extend_from_slice(&frame)
}

/// The samples of a game from the start, behind those that are there, by frames of one byte: seat
/// 0's input and 16 times seat 1's.
pub fn keep_game_sound(frames: &[u8], samples: &mut Vec<u8>) -> Result<(), AllocError>
    ensures { let sound = game_sound (map seat_0 frames.now) (map seat_1 frames.now) in
        OnOk result (samples.new.items ≡ samples.old.items ++ sound) }
{
    let mut game = CourtGame::start();
    // By the plain game's loop, so that the code of a frame stands at one place in a program, in
    // line there.
    for i in 0..frames.len() {
        game = play_frames(game, &frames[i..i + 1]);
        keep_sound(game.tone, samples)?;
    }
    Ok(())
}

/// The sound of a game as a WAV file, by frames of one byte; at most `MOST_FRAMES` of them.
pub fn game_wav(heap: Global, frames: &[u8]) -> Result<Vec<u8>, AllocError>
    requires { length frames.now ≤ 1000000 }
    ensures { let sound = game_sound (map seat_0 frames.now) (map seat_1 frames.now) in
        IfOk result (λ file. file.items ≡ wav_header_of (length frames.now) ++ sound) }
{
    let mut file = Vec::new(heap);
    // The check proves that the cast loses nothing.
    file.extend_from_slice(&wav_header(frames.len() as u32))?;
    keep_game_sound(frames, &mut file)?;
    Ok(file)
}
