// Where a peer stands.
ghost use Rattle.std.specs.Prelude.{Some};
ghost use Rattle.session.specs.Standing.{status_text};

use court::state::Score;
use std::fmt;

#[derive(Clone, Copy, PartialEq, Eq, Debug)]
pub struct Status {
    // Frames that it has played.
    pub frames: usize,
    // Frames of which it has both inputs.
    pub confirmed: usize,
    // The score that it shows.
    pub score: Score,
}

impl fmt::Display for Status {
    ghost output = { λ status. Some (status_text status) };

    fn fmt<W: fmt::Write>(&self, f: &mut fmt::Formatter<W>) -> fmt::Result {
        write!(
            f,
            "beat {} sure {} points {} {}",
            self.frames, self.confirmed, self.score.left, self.score.right
        )
    }
}
