// What is heard of a recording up to any frame.
ghost use Rattle.std.specs.Prelude.{◌≡◌, ◌≤◌, ◌++◌, length, map, take, IfOk};
ghost use Rattle.court_game.specs.Sounds.{game_sound};
ghost use Rattle.game.specs.Plain.{seat_0, seat_1};
ghost use Rattle.sound.specs.Wav.{wav_header_of};

use crate::held::Recording;
use court_game::sounds::game_wav;
use std::alloc::{AllocError, Global};

impl Recording<'_> {
    /// The sound of the first frames as a WAV file, as many as are asked for and there.
    pub fn wav_until(&self, heap: Global, frames: usize) -> Result<Vec<u8>, AllocError>
        requires { length self.now.frames.now ≤ 1000000 }
        ensures { let played = take frames self.now.frames.now in
            IfOk result (λ file. file.items ≡
            wav_header_of (length played) ++ game_sound (map seat_0 played) (map seat_1 played)) }
    {
        let end = frames.min(self.frames.len());
        game_wav(heap, &self.frames[..end])
    }
}
