// A row of moves at two machines, from the beginning.
ghost use Rattle.std.specs.Prelude.{◌≡◌, ◌≢◌, ℕ, ◌≤◌, List, length, Err, IfOk, MatchResult, nat_le};
ghost use Rattle.std.specs.Result.{result_and};
ghost use Rattle.court_game.specs.Games.{is_input};
ghost use Rattle.peer.specs.Refusals.{begin_checked};
ghost use Rattle.session.specs.Refusals.{said_begun};
ghost use Rattle.session.specs.declared.refused.Refused.{Refused as Faults};
ghost use Rattle.exchange.specs.declared.run.Unplayed.TheVariants.{Refused as Unbegun, NoMemory};
ghost use Rattle.game.specs.declared.seat.Seat.TheVariants.{Left, Right};
ghost use Rattle.game.specs.declared.seat.Seat.{Seat as At};
ghost use Rattle.network.specs.Network.{Turn};
ghost use Rattle.network.specs.Promise.{Came};
ghost use Rattle.peer.specs.Lent.{log_of};
ghost use Rattle.peer.specs.Peers.{confirmed};
ghost use Rattle.exchange.specs.Moves.{after_moves, court_network, PeerAt};
ghost use Rattle.exchange.specs.Agreed.{Agree};
ghost use Rattle.exchange.specs.Tallies.{tally_after};
ghost use Rattle.session.specs.Rows.{memory};

use crate::machine::Machine;
use crate::moves::Move;
use crate::tally::Tally;
use game::seat::Seat;
use peer::Peer;
use session::Refused;
use session::calls::{begin, check_lent};
use std::alloc::{AllocError, Global};

// What a machine came to.
#[derive(Clone, Copy, PartialEq, Eq, Debug)]
pub struct Played {
    pub peer: Peer,
    pub tally: Tally,
}

// Both machines, after all moves.
#[derive(Clone, Copy, PartialEq, Eq, Debug)]
pub struct Both {
    pub left: Played,
    pub right: Played,
}

// Why a row of moves is not played.
#[derive(Clone, Copy, PartialEq, Eq, Debug)]
pub enum Unplayed {
    // A session does not begin.
    Refused(Refused),
    // There is no memory for the packets.
    NoMemory,
}

impl From<AllocError> for Unplayed {
    ghost from_gives = { λ _ unplayed. unplayed ≡ NoMemory };

    fn from(_: AllocError) -> Unplayed {
        Unplayed::NoMemory
    }
}

impl From<Refused> for Unplayed {
    ghost from_gives = { λ refused unplayed. unplayed ≡ Unbegun refused };

    fn from(refused: Refused) -> Unplayed {
        Unplayed::Refused(refused)
    }
}

// Both machines begin, and all moves are made; where one may not begin, nothing changes. Whatever the radio loses, doubles, delays or
// exchanges: both memories are those of the network after these moves, and both are sure of one and the same game, with the same bytes
// in both recordings; of all frames that both had played when a packet of each was written that then came to the other.
// Each lent slice is a parameter: clauses would call what a struct of them leaves `left.exit.0`, and by `&mut` it cannot be passed on to
// `begin` yet.
pub fn play_moves(
    heap: Global,
    window: usize,
    left_inputs: &mut [u8],
    left_states: &mut [u8],
    right_inputs: &mut [u8],
    right_states: &mut [u8],
    picture: &[u8],
    row: &[Move],
) -> Result<Both, Unplayed>
    ensures refused { MatchResult (result_and (said_begun (begin_checked window (length left_inputs.old) (length left_states.old)) (length picture.now)) (said_begun (begin_checked window (length right_inputs.old) (length right_states.old)) (length picture.now))) (λ _. (f : Faults) → result ≢ Err (Unbegun f)) (λ f. result ≡ Err (Unbegun f)) }
    ensures idle { (f : Faults) → result ≡ Err (Unbegun f) → (left_inputs.new ≡ left_inputs.old) × (left_states.new ≡ left_states.old) × (right_inputs.new ≡ right_inputs.old) × (right_states.new ≡ right_states.old) }
    ensures left { IfOk result (λ b. PeerAt window (after_moves window row.now) Left (memory b.left.peer left_inputs.new left_states.new)) }
    ensures right { IfOk result (λ b. PeerAt window (after_moves window row.now) Right (memory b.right.peer right_inputs.new right_states.new)) }
    ensures tally { IfOk result (λ b. (b.left.tally ≡ tally_after window Left row.now) × (b.right.tally ≡ tally_after window Right row.now)) }
    ensures agree { IfOk result (λ b. Agree window (log_of b.left.peer left_inputs.new) (log_of b.right.peer right_inputs.new)) }
    ensures sure { IfOk result (λ b. (m : ℕ) (ts : List Turn) → after_moves window row.now ≡ court_network window ts → ((seat : At) → Came is_input window m ts seat) → (m ≤ confirmed (log_of b.left.peer left_inputs.new)) × (m ≤ confirmed (log_of b.right.peer right_inputs.new))) }
{
    check_lent(window, left_inputs, left_states, picture)?;
    check_lent(window, right_inputs, right_states, picture)?;
    let peer = begin(Seat::Left, window, left_inputs, left_states, picture)?;
    // No function makes a machine: a Result of one is not covered, and after any other call the memory that the loop leaves is not known.
    let mut left = Machine {
        peer,
        inputs: left_inputs,
        states: left_states,
        tally: Tally::new(),
    };
    let peer = begin(Seat::Right, window, right_inputs, right_states, picture)?;
    let mut right = Machine {
        peer,
        inputs: right_inputs,
        states: right_states,
        tally: Tally::new(),
    };
    let mut to_left = Vec::new(heap);
    let mut to_right = Vec::new(heap);
    for step in row {
        // `in_order` of references to machines is not covered.
        match step.seat {
            Seat::Left => left.act(step.act, &to_left, &mut to_right)?,
            Seat::Right => right.act(step.act, &to_right, &mut to_left)?,
        }
    }
    Ok(Both {
        left: Played {
            peer: left.peer,
            tally: left.tally,
        },
        right: Played {
            peer: right.peer,
            tally: right.tally,
        },
    })
}
