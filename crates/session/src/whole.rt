// A whole session: a file of events from the beginning, and the picture at its end.
ghost use Rattle.std.specs.Prelude.{◌≡◌, ℕ, ◌+◌, true, List, ◌++◌, length, drop, is_err, IfOk, OnOk};
ghost use Rattle.court_game.specs.Games.{court_game};
ghost use Rattle.game.specs.declared.seat.Seat.{Seat as At};
ghost use Rattle.peer.specs.Peers.{Event, shows};
ghost use Rattle.peer.specs.Refusals.{begin_checked};
ghost use Rattle.picture.specs.Picture.{picture_of};
ghost use Rattle.rollback.specs.Saved.{Behind};
ghost use Rattle.session.specs.Files.{FileOf};
ghost use Rattle.session.specs.Refusals.{said_begun};
ghost use Rattle.session.specs.Rows.{After, log_after, memory};
ghost use Rattle.session.specs.Whole.{Answered};

use crate::calls::{PACKET_LENGTH, begin, check_lent, draw, happen};
use crate::refused::Refused;
use crate::row::Row;
use game::seat::Seat;
use peer::Peer;

// All events of a row, right and wrong.
fn happen_all(p: &mut Peer, inputs: &mut [u8], states: &mut [u8], row: Row)
    ensures behind { Behind (p.old.window + 1) states.old states.new }
    ensures row { (seat : At) (window : ℕ) (before es : List Event) → After seat window before (memory p.old inputs.old states.old) → FileOf es row.entry.file.now → After seat window (before ++ es) (memory p.new inputs.new states.new) }
{
    let mut out = [0; PACKET_LENGTH];
    for event in row.events() {
        let _ = happen(p, inputs, states, event.unwrap(), &mut out);
    }
}

// A session from its beginning: all events of a file, and then the picture of what the peer shows. Whatever the events were, right
// and wrong, that is the picture of the plain game with the inputs that the peer has, those of the other's that have not come
// predicted. A file that is no row of events is refused before any event is carried out, and a refusal changes nothing.
pub fn play_session(
    seat: Seat,
    window: usize,
    inputs: &mut [u8],
    states: &mut [u8],
    picture: &mut [u8],
    file: &[u8],
) -> Result<Peer, Refused>
    ensures answer { Answered (said_begun (begin_checked window (length inputs.old) (length states.old)) (length picture.old)) file.now result }
    ensures idle { is_err result ≡ true → (inputs.new ≡ inputs.old) × (states.new ≡ states.old) × (picture.new ≡ picture.old) }
    ensures behind { Behind (window + 1) states.old states.new }
    ensures row { IfOk result (λ p. (es : List Event) → FileOf es file.now → After seat window es (memory p inputs.new states.new)) }
    ensures shown { OnOk result ((es : List Event) → FileOf es file.now → picture.new ≡ picture_of (shows court_game seat (log_after window es)) ++ drop 19200 picture.old) }
{
    check_lent(window, inputs, states, picture)?;
    let row = Row::of(file)?;
    let mut p = begin(seat, window, inputs, states, picture)?;
    happen_all(&mut p, inputs, states, row);
    draw(&p, states, picture).unwrap();
    Ok(p)
}
