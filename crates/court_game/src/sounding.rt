// The court with its tone as an implementation of what an engine asks of a game.
ghost use Rattle.court_game.specs.Sounding.{SoundingCourt, sounding_rules};
ghost use Rattle.court_game.specs.Held.{sounding_court};

use court::{Court, Input};
use game::rules::Game;
use sound::Tone;

/// A court as an engine holds it, with the tone that sounds; a type of this crate, so that the
/// trait can be implemented for it.
#[derive(Clone, Copy)]
pub struct CourtGame {
    pub court: Court,
    pub tone: Tone,
}

impl Game for CourtGame {
    ghost model = { SoundingCourt };

    ghost rules = { sounding_rules };

    ghost seen = { sounding_court };

    fn fits(input: u8) -> bool {
        input <= 15
    }

    fn start() -> CourtGame {
        CourtGame {
            court: Court::new(),
            tone: Tone::silent(),
        }
    }

    fn advance(self, left: u8, right: u8) -> CourtGame {
        let frame = self.court.frame(Input(left), Input(right));
        CourtGame {
            court: frame.court,
            tone: self.tone.after(frame.cue),
        }
    }
}
