// A second game, as small as one can be: its state is a number that all inputs so far have gone into, in their order.
ghost use Rattle.std.specs.Prelude.{ℕ};
ghost use Rattle.std.proofs.Common.{rules as found};
ghost use Rattle.rollback_tests.specs.Trails.{trail_rules};

use byte_numbers::LittleEndian;
use game::saved::{STATE_BYTES, SavedGame};

#[derive(Clone, Copy, PartialEq, Eq, Debug)]
pub struct Trail(pub u32);

impl SavedGame for Trail {
    ghost states = { ℕ };

    ghost saved = { trail_rules };

    ghost state = { λ t. t.0 };

    fn fits(input: u8) -> bool {
        input <= 15
    }

    fn start() -> Trail {
        Trail(1)
    }

    fn advance(self, left: u8, right: u8) -> Trail {
        let step = u32::from(left) * 17 + u32::from(right);
        Trail(self.0.wrapping_mul(31).wrapping_add(step))
    }

    fn save(self, part: &mut [u8]) {
        self.0.put(part, 0);
        part[4..STATE_BYTES].fill(0);
    }

    fn load(part: &[u8]) -> Trail {
        Trail(u32::get(part, 0))
    }

    ghost lawful = { Prim.search found };
}
