// Lent memory, as each call tests it.
ghost use Rattle.std.specs.Prelude.{◌≡◌, ◌≤◌, OnOk, length};
ghost use Rattle.peer.specs.Refusals.{memory_checked};
ghost use Rattle.rollback.specs.Saved.{Roomy};

use peer::Refusal;
use peer::memory::{check_inputs, check_states};

// Two lines of their own, and none of `peer`'s: callers here have to know in this crate's word, `Roomy`, that there is room.
pub(crate) fn check_memory(window: usize, inputs: &[u8], states: &[u8]) -> Result<(), Refusal>
    requires { window ≤ 60 }
    ensures answer { result ≡ memory_checked window (length inputs.now) (length states.now) }
    ensures room { OnOk result (Roomy window inputs.now states.now) }
{
    check_inputs(inputs)?;
    check_states(window, states)
}
