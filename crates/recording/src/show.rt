// The picture after any frame of a recording, from its bytes.
ghost use Rattle.std.specs.Prelude.{◌≡◌, length};
ghost use Rattle.recording.specs.declared.show.Unshown.TheVariants.{Recording as OfRecording, Picture as OfPicture};
ghost use Rattle.recording.specs.Reading.{reading};
ghost use Rattle.recording.specs.Showing.{said_shown, drawn_over};

use crate::fault::Fault;
use crate::held::Recording;
use court::state::Score;
use picture::{Refused, draw};

// What was shown.
#[derive(Clone, Copy, PartialEq, Eq, Debug)]
pub struct Shown {
    // How many frames the recording has.
    pub frames: usize,
    // The score after the frame that is shown.
    pub score: Score,
}

// Why nothing is shown.
#[derive(Clone, Copy, PartialEq, Eq, Debug)]
pub enum Unshown {
    // The bytes are no recording.
    Recording(Fault),
    // The recording has only so many frames.
    Beyond(usize),
    // Lent memory for the picture that is too short.
    Picture,
}

impl From<Fault> for Unshown {
    ghost from_gives = { λ fault unshown. unshown ≡ OfRecording fault };

    fn from(fault: Fault) -> Unshown {
        Unshown::Recording(fault)
    }
}

impl From<Refused> for Unshown {
    ghost from_gives = { λ _ unshown. unshown ≡ OfPicture };

    fn from(_: Refused) -> Unshown {
        Unshown::Picture
    }
}

// Reads a recording and draws the picture after a frame, 0 for the start. Nothing else changes, and nothing where it is refused.
pub fn show(bytes: &[u8], frame: usize, picture: &mut [u8]) -> Result<Shown, Unshown>
    ensures answer { result ≡ said_shown (reading bytes.now) frame (length picture.old) }
    ensures picture { picture.new ≡ drawn_over (reading bytes.now) frame picture.old }
{
    let recording = Recording::read(bytes)?;
    let frames = recording.frames.len();
    let court = recording.state_after(frame).ok_or(Unshown::Beyond(frames))?;
    draw(court, picture)?;
    Ok(Shown {
        frames,
        score: court.state.score,
    })
}
