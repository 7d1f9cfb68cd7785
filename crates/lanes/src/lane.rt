// A seat's lane in lent memory.
ghost use Rattle.std.specs.Prelude.{◌≡◌, ◌≤◌, ◌+◌, ◌↔◌, IsTrue};
ghost use Rattle.seats.specs.Plain.{most_frames};

use game::plain::MOST_FRAMES;

/// How many inputs of a seat are known: no more than a lane has room for.
#[derive(Clone, Copy, PartialEq, Eq, Debug)]
pub struct Lane {
    pub known: usize,
    ghost room: { known ≤ most_frames },
}

impl Lane {
    /// A lane of which no input is known.
    pub fn new() -> Lane
        ensures { result.known ≡ 0 }
    {
        Lane { known: 0 }
    }

    /// Whether it has no room for another input.
    pub fn is_full(self) -> bool
        ensures { IsTrue result ↔ (self.known ≡ most_frames) }
    {
        self.known == MOST_FRAMES
    }

    /// The lane with so many inputs more.
    pub fn longer(self, count: usize) -> Lane
        requires { self.known + count ≤ most_frames }
        ensures { result.known ≡ self.known + count }
    {
        Lane {
            known: self.known + count,
        }
    }
}
