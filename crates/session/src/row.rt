// A file that is a row of events: it was looked through, and nothing in it is refused.
ghost use Rattle.std.specs.Prelude.{◌≡◌, ℕ, List, MatchResult};
ghost use Rattle.peer.specs.Peers.{Event as Happened};
ghost use Rattle.session.specs.declared.refused.Refused.TheVariants.{Event};
ghost use Rattle.session.specs.Files.{FileOf, FaultyAt};
ghost use Rattle.session.specs.Following.{StandsIn};

use crate::file::{Events, check_events};
use crate::refused::Refused;

#[derive(Clone, Copy)]
pub struct Row<'a> {
    file: &'a [u8],
    ghost whole: { (at : ℕ) → FaultyAt file.now at → ⊥ },
}

impl<'a> Row<'a> {
    // The row that a file is; or the first byte of what is no event.
    pub fn of(file: &'a [u8]) -> Result<Row<'a>, Refused>
        ensures { MatchResult result (λ r. (r.file.now ≡ file.now) × ((es : List Happened) × FileOf es file.now)) (λ f. (at : ℕ) × (f ≡ Event at) × FaultyAt file.now at) }
    {
        check_events(file)?;
        Ok(Row { file })
    }

    pub fn events(self) -> Events<'a>
        ensures { StandsIn self.entry.file.now 0 result }
    {
        Events::of(self.file)
    }
}
