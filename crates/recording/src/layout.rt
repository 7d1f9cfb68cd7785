// Where the parts of a recording lie, and how long it is.
ghost use Rattle.std.specs.Prelude.{◌≡◌, ◌≤◌, min};
ghost use Rattle.recording.specs.Matches.{match_length};

use game::saved::STATE_BYTES;
use peer::Peer;

pub(crate) const MARK: [u8; 3] = *b"REC";

pub(crate) const WINDOW_AT: usize = 3;

pub(crate) const COUNT_AT: usize = 4;

pub(crate) const FRAMES_AT: usize = 8;

// Frames from one saved state to the next.
pub(crate) const EVERY: usize = 600;

// How long a recording of so many frames is.
pub(crate) fn length_by(frames: usize) -> usize
    requires { frames ≤ 1000000 }
    ensures { result ≡ match_length frames }
{
    FRAMES_AT + frames + STATE_BYTES * (frames / EVERY)
}

// How long the recording of what a peer is sure of is.
pub fn length_of(p: &Peer) -> usize
    ensures { result ≡ match_length (min p.now.own p.now.other) }
{
    length_by(p.confirmed())
}
