// Bytes as a recording, or their first fault.
ghost use Rattle.std.specs.Prelude.{◌≡◌, ◌+◌, ◌/◌, ◌≤◌, length, IfOk};
ghost use Rattle.court_game.specs.Held.{sounding_court};
ghost use Rattle.court_game.specs.Snapshots.{state_bytes};
ghost use Rattle.recording.specs.Matches.{marks, match_bytes};
ghost use Rattle.recording.specs.Reading.{differing, states_told, reading, read_as, match_in, PartsOf, Proper, Right};

use crate::fault::Fault;
use crate::held::Recording;
use crate::layout::{COUNT_AT, EVERY, FRAMES_AT, MARK, WINDOW_AT};
use byte_numbers::LittleEndian;
use court_game::snapshot::save_state;
use court_game::sounding::CourtGame;
use game::plain::MOST_FRAMES;
use game::rules::Game;
use game::saved::STATE_BYTES;
use peer::numbers::check_window;
use std::cmp::Ordering;

// Where two slices first differ, as far as both go.
fn first_difference(xs: &[u8], ys: &[u8]) -> Option<usize>
    ensures { result ≡ differing xs.now ys.now }
{
    xs.iter().zip(ys).position(|(x, y)| x != y)
}

// A state's bytes.
fn bytes_of(state: CourtGame) -> [u8; STATE_BYTES]
    ensures { result ≡ state_bytes (sounding_court state) }
{
    let mut bytes = [0; STATE_BYTES];
    save_state(state, &mut bytes);
    bytes
}

// The header, and the parts behind it, of which the saved states are not judged yet.
#[tactic(auto, unfolding(crate::specs::Reading::head_checked))]
fn split_parts(bytes: &[u8]) -> Result<Recording<'_>, Fault>
    ensures { PartsOf bytes.now result }
{
    if let Some(at) = first_difference(bytes, &MARK) {
        return Err(Fault::NoMark(at));
    }
    let cut = Fault::CutShort(bytes.len());
    let window = *bytes.get(WINDOW_AT).ok_or(cut)?;
    check_window(usize::from(window)).map_err(|_| Fault::Window)?;
    if bytes.len() < FRAMES_AT {
        return Err(cut);
    }
    // The check proves that the cast loses nothing: `try_from` would bring an error that cannot come.
    let count = u32::get(bytes, COUNT_AT) as usize;
    if count > MOST_FRAMES {
        return Err(Fault::TooMany);
    }
    let (frames, states) = bytes[FRAMES_AT..].split_at_checked(count).ok_or(cut)?;
    Ok(Recording {
        window,
        frames,
        states,
    })
}

impl<'a> Recording<'a> {
    // The first byte of the saved states that is not what the frames give, as far as there are states.
    fn wrong_state(&self) -> Option<usize>
        ensures { result ≡ differing self.now.states.now (marks self.now.frames.now (length self.now.frames.now / 600)) }
    {
        let mut state = CourtGame::start();
        let parts = self.frames.chunks_exact(EVERY);
        // By the state's number, since `chunks` tells no place.
        for (j, (part, saved)) in parts.zip(self.states.chunks(STATE_BYTES)).enumerate() {
            state = game::plain::play_frames(state, part);
            if let Some(at) = first_difference(saved, &bytes_of(state)) {
                return Some(STATE_BYTES * j + at);
            }
        }
        None
    }

    // The saved states, behind frames that are right.
    #[tactic(auto, using(crate::proofs::Differences::differs_below, crate::proofs::Frames::length_marks))]
    fn check_states(&self) -> Result<(), Fault>
        requires { length self.now.frames.now ≤ 1000000 }
        ensures { let due = marks self.now.frames.now (length self.now.frames.now / 600) in result ≡ states_told (8 + length self.now.frames.now) (differing self.now.states.now due) (length self.now.states.now) (length due) }
    {
        let at = FRAMES_AT + self.frames.len();
        if let Some(wrong) = self.wrong_state() {
            return Err(Fault::WrongState(at + wrong));
        }
        let due = STATE_BYTES * (self.frames.len() / EVERY);
        match self.states.len().cmp(&due) {
            Ordering::Less => Err(Fault::CutShort(at + self.states.len())),
            Ordering::Equal => Ok(()),
            Ordering::Greater => Err(Fault::TooLong(at + due)),
        }
    }

    // Bytes as a recording, or their first fault. One that is taken is written as those very bytes.
    #[tactic(auto, using(crate::proofs::Checks::few_frames, crate::proofs::Checks::headed, crate::proofs::Checks::told_as), unfolding(crate::specs::Reading::reading))]
    pub fn read(bytes: &'a [u8]) -> Result<Recording<'a>, Fault>
        ensures value { read_as result ≡ reading bytes.now }
        ensures proper { IfOk result (λ m. Proper (match_in m)) }
        ensures right { IfOk result Right }
        ensures back { IfOk result (λ m. match_bytes (match_in m) ≡ bytes.now) }
    {
        let recording = split_parts(bytes)?;
        recording.check_states()?;
        Ok(recording)
    }
}
