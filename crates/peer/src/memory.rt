// Lent memory, as each call tests it: it is lent anew each time, so no type can keep that it is long enough.
ghost use Rattle.std.specs.Prelude.{◌≡◌, ◌+◌, ◌*◌, ◌<◌, ◌≤◌, length, MatchResult};
ghost use Rattle.peer.specs.declared.refusal.Refusal.TheVariants.{Inputs, States};
ghost use Rattle.peer.specs.Lent.{Long, LongStates};

use crate::log::HALF;
use crate::numbers::MOST_WINDOW;
use crate::refusal::Refusal;
use game::saved::STATE_BYTES;

// As many bytes as the inputs of both seats take.
pub const INPUTS: usize = 2 * HALF;

// As many bytes as the states of the largest window take.
pub const MOST_STATES: usize = (MOST_WINDOW + 1) * STATE_BYTES;

// No clause here says it; callers lend as much.
const _: () = prove!(MOST_STATES == 61 * 64);

// Whether the inputs of both seats have room.
pub fn check_inputs(inputs: &[u8]) -> Result<(), Refusal>
    ensures { MatchResult result (λ _. Long inputs.now) (λ f. (f ≡ Inputs) × (length inputs.now < 2000000)) }
{
    if inputs.len() < INPUTS {
        return Err(Refusal::Inputs);
    }
    Ok(())
}

// Whether one state more than the window has room.
pub fn check_states(window: usize, states: &[u8]) -> Result<(), Refusal>
    requires { window ≤ 60 }
    ensures { MatchResult result (λ _. LongStates window states.now) (λ f. (f ≡ States) × (length states.now < (window + 1) * 64)) }
{
    if states.len() < (window + 1) * STATE_BYTES {
        return Err(Refusal::States);
    }
    Ok(())
}
