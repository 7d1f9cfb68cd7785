// The court with its tone as a game whose states can be saved.
ghost use Rattle.court_game.specs.Sounding.{SoundingCourt};
ghost use Rattle.court_game.specs.Held.{sounding_court};
ghost use Rattle.court_game.specs.Saved.{court_saved, court_lawful};

use crate::snapshot::{load_state, save_state};
use crate::sounding::CourtGame;
use game::rules::Game;
use game::saved::SavedGame;

impl SavedGame for CourtGame {
    ghost states = { SoundingCourt };

    ghost saved = { court_saved };

    ghost state = { sounding_court };

    fn fits(input: u8) -> bool {
        <CourtGame as Game>::fits(input)
    }

    fn start() -> CourtGame {
        <CourtGame as Game>::start()
    }

    fn advance(self, left: u8, right: u8) -> CourtGame {
        Game::advance(self, left, right)
    }

    fn save(self, part: &mut [u8]) {
        save_state(self, part);
    }

    fn load(part: &[u8]) -> CourtGame {
        load_state(part)
    }

    ghost lawful = { court_lawful };
}
