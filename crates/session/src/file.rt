// Events in bytes, as files have them: 0 and an input, or 1, a length in two bytes, low byte first, and bytes that came.
ghost use Rattle.std.specs.Prelude.{◌≡◌, ℕ, ◌+◌, ◌-◌, ◌≤◌, List, ◌∷◌, length, drop, MatchResult, slice_index};
ghost use Rattle.session.specs.declared.refused.Refused.TheVariants.{Event};
ghost use Rattle.session.specs.Events.{event_of};
ghost use Rattle.byte_numbers.specs.Little.{little};
ghost use Rattle.peer.specs.Peers.{Event as Happened};
ghost use Rattle.session.specs.Files.{FileOf, StandsAt, NoEvent, FaultyAt};
ghost use Rattle.session.specs.Following.{GivesEvent, StandsIn};
ghost use Rattle.std.specs.Iterator.{at_most};

use crate::event::Happening;
use crate::refused::Refused;

const TICK: u8 = 0;

const ARRIVAL: u8 = 1;

// Bytes before a packet: the event's kind and the packet's length.
pub const HEAD: usize = 3;

// An event of a file, and where the next one would begin.
#[derive(Clone, Copy, PartialEq, Eq, Debug)]
pub struct Placed<'a> {
    pub event: Happening<'a>,
    pub next: usize,
}

// The event that begins at a place of a file; or that there is none. A packet is a part of the file.
pub fn event_at(file: &[u8], at: usize) -> Result<Placed<'_>, Refused>
    ensures { MatchResult result (λ p. StandsAt file.now at (event_of p.event) p.next) (λ f. (f ≡ Event at) × NoEvent (drop at file.now)) }
{
    match file.get(at..) {
        Some([TICK, input, ..]) => Ok(Placed {
            event: Happening::Tick(*input),
            next: at + 2,
        }),
        Some([ARRIVAL, low, high, rest @ ..]) => {
            let length = usize::from(u16::from_le_bytes([*low, *high]));
            let bytes = rest.get(..length).ok_or(Refused::Event(at))?;
            Ok(Placed {
                event: Happening::Arrival(bytes),
                next: at + HEAD + length,
            })
        }
        _ => Err(Refused::Event(at)),
    }
}

// The events of a file that are still to come.
#[derive(Clone, Drop)]
pub struct Events<'a> {
    file: &'a [u8],
    at: usize,
}

impl<'a> Events<'a> {
    pub fn of(file: &'a [u8]) -> Events<'a>
        ensures { StandsIn file.now 0 result }
    {
        Events { file, at: 0 }
    }
}

impl<'a> Iterator for Events<'a> {
    type Item = Result<Happening<'a>, Refused>;

    ghost next_gives = { GivesEvent };

    ghost remaining = { λ events. at_most (length events.file.now - events.at) };

    // The next event. Bytes that are none are refused, and then no more comes.
    fn next(&mut self) -> Option<Result<Happening<'a>, Refused>> {
        if self.file.len() <= self.at {
            return None;
        }
        match event_at(self.file, self.at) {
            Ok(placed) => {
                self.at = placed.next;
                Some(Ok(placed.event))
            }
            Err(refused) => {
                self.at = self.file.len();
                Some(Err(refused))
            }
        }
    }
}

// How many events a file has; or the first byte of what is no event.
pub fn check_events(file: &[u8]) -> Result<usize, Refused>
    ensures { MatchResult result (λ n. (es : List Happened) × FileOf es file.now × (n ≡ length es)) (λ f. (at : ℕ) × (f ≡ Event at) × FaultyAt file.now at) }
{
    let mut count = 0;
    for event in Events::of(file) {
        event?;
        count += 1;
    }
    Ok(count)
}

// What stands before a packet of this length in a file of events.
pub fn arrival_head(length: u16) -> [u8; HEAD]
    ensures { result ≡ 1 ∷ little 2 length }
{
    let [low, high] = length.to_le_bytes();
    [ARRIVAL, low, high]
}
