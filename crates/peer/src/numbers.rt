// A peer's numbers. Its inputs lie in memory that is lent anew at each call, so they are a parameter beside it, and what
// works on both is a function: a method would take the same.
ghost use Rattle.std.specs.Prelude.{◌≡◌, ◌+◌, ◌≤◌, min, ◌&&◌, Ok, Err, IfOk, MatchResult, nat_lt};
ghost use Rattle.peer.specs.Refusals.{window_checked};

use crate::refusal::Refusal;
use game::plain::MOST_FRAMES;
use game::seat::Seat;

pub(crate) const MOST_WINDOW: usize = 60;

#[derive(Clone, Copy, PartialEq, Eq, Debug)]
pub struct Peer {
    pub seat: Seat,
    // How many frames it may be ahead of the other's inputs that it has.
    pub window: usize,
    // How many inputs it has: its own, and the other's.
    pub own: usize,
    pub other: usize,
    // The most of its own inputs that the other acknowledged.
    pub acked: usize,
    ghost near: { (1 ≤ window) × (window ≤ 60) },
    ghost few: { (own ≤ 1000000) × (other ≤ 1000000) },
    ghost ahead: { own ≤ other + window },
    ghost made: { acked ≤ own },
}

// Whether a peer may have such a window.
pub fn check_window(window: usize) -> Result<(), Refusal>
    ensures { result ≡ window_checked window }
{
    if (1..=MOST_WINDOW).contains(&window) {
        Ok(())
    } else {
        Err(Refusal::Window)
    }
}

impl Peer {
    // A peer that has no inputs yet, or none where it may not have such a window.
    pub fn new(seat: Seat, window: usize) -> Result<Peer, Refusal>
        ensures answer { MatchResult result (λ _. window_checked window ≡ Ok tt) (λ f. window_checked window ≡ Err f) }
        ensures new { IfOk result (λ p. (p.seat ≡ seat) × (p.window ≡ window) × (p.own ≡ 0) × (p.other ≡ 0) × (p.acked ≡ 0)) }
    {
        check_window(window)?;
        Ok(Peer {
            seat,
            window,
            own: 0,
            other: 0,
            acked: 0,
        })
    }

    // Whether a tick plays a frame.
    pub fn may_play(&self) -> bool
        ensures { result ≡ (nat_lt self.now.own 1000000 && nat_lt self.now.own (self.now.other + self.now.window)) }
    {
        self.own < MOST_FRAMES && self.own < self.other + self.window
    }

    // Of how many frames it has both inputs.
    pub fn confirmed(&self) -> usize
        ensures { result ≡ min self.now.own self.now.other }
    {
        self.own.min(self.other)
    }
}
