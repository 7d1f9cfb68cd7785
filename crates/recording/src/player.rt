// Any moment of a recording, begun at the last saved state before it.
ghost use Rattle.std.specs.Prelude.{◌≡◌, ◌*◌, ◌/◌, ◌<◌, ◌≤◌, map, length, take, MatchOption, IsSomeAnd};
ghost use Rattle.court_game.specs.Held.{sounding_court};
ghost use Rattle.court_game.specs.Sounding.{sounding_game};
ghost use Rattle.game.specs.Plain.{plays, seat_0, seat_1};
ghost use Rattle.recording.specs.Matches.{after_frames, sounding_after};
ghost use Rattle.recording.specs.Reading.{Right};

use crate::held::Recording;
use crate::layout::EVERY;
use court::Court;
use court_game::snapshot::load_state;
use court_game::sounding::CourtGame;
use game::rules::Game;
use game::saved::STATE_BYTES;

// The frames behind the last saved state: at most 599.
fn play_rest(from: CourtGame, rest: &[u8]) -> CourtGame
    requires { length rest.now < 600 }
    ensures { sounding_court result
        ≡ plays sounding_game (sounding_court from) (map seat_0 rest.now) (map seat_1 rest.now) }
{
    game::plain::play_frames(from, rest)
}

impl Recording<'_> {
    // The state after so many times 600 frames; none where it is not saved.
    #[tactic(auto, using(crate::proofs::Frames::length_marks), unfolding(game::specs::Plain::plays))]
    fn saved(&self, marks: usize) -> Option<CourtGame>
        requires { marks ≤ length self.now.frames.now / 600 }
        ensures { Right self.now → IsSomeAnd result
            (λ g. sounding_court g ≡ sounding_after (take (600 * marks) self.now.frames.now)) }
    {
        if marks == 0 {
            return Some(CourtGame::start());
        }
        let end = STATE_BYTES * marks;
        let saved = self.states.get(end - STATE_BYTES..end)?;
        Some(load_state(saved))
    }

    /// The state after a frame, with its tone; none beyond the last.
    pub fn game_after(&self, frame: usize) -> Option<CourtGame>
        ensures { Right self.now → MatchOption result (length self.now.frames.now < frame)
            (λ g. (frame ≤ length self.now.frames.now)
            × (sounding_court g ≡ sounding_after (take frame self.now.frames.now))) }
    {
        let played = self.frames.get(..frame)?;
        let marks = frame / EVERY;
        let from = self.saved(marks)?;
        Some(play_rest(from, &played[EVERY * marks..]))
    }

    /// The state after a frame; none beyond the last.
    pub fn state_after(&self, frame: usize) -> Option<Court>
        ensures { Right self.now → MatchOption result (length self.now.frames.now < frame) (λ c. (frame ≤ length self.now.frames.now) × (c.state ≡ after_frames (take frame self.now.frames.now))) }
    {
        let game = self.game_after(frame)?;
        Some(game.court)
    }
}
