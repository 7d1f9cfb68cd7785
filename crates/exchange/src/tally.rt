// What the events at one machine came to, counted.
ghost use Rattle.std.specs.Prelude.{◌≡◌};
ghost use Rattle.exchange.specs.Tallies.{counted_by};

use crate::moves::Act;
use rollback::Outcome;

#[derive(Clone, Copy, PartialEq, Eq, Debug)]
pub struct Tally {
    // Ticks that were lost.
    pub lost: usize,
    // Ticks and packets that were refused.
    pub refused: usize,
    // Frames that were played, and those of them that had been played before.
    pub played: usize,
    pub again: usize,
}

impl Tally {
    pub fn new() -> Tally
        ensures { result ≡ record { lost = 0; refused = 0; played = 0; again = 0 } }
    {
        Tally {
            lost: 0,
            refused: 0,
            played: 0,
            again: 0,
        }
    }

    // With one event more. What a packet plays was played before.
    pub fn counted(self, act: Act, outcome: Outcome) -> Tally
        ensures { result ≡ counted_by act outcome self }
    {
        match (outcome, act) {
            (Outcome::Taken(frames), Act::Tick(_)) => Tally {
                played: self.played.saturating_add(frames),
                ..self
            },
            (Outcome::Taken(frames), Act::Deliver(_)) => Tally {
                played: self.played.saturating_add(frames),
                again: self.again.saturating_add(frames),
                ..self
            },
            (Outcome::Lost, _) => Tally {
                lost: self.lost.saturating_add(1),
                ..self
            },
            (Outcome::Refused(_), _) => Tally {
                refused: self.refused.saturating_add(1),
                ..self
            },
        }
    }
}
