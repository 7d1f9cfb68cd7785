// The score: a digit for each seat, in rows 4 to 8.
ghost use Rattle.std.specs.Prelude.{◌≡◌, ℕ, ◌+◌, ◌<◌, ◌≤◌, ◌&&◌, ◌||◌, length, if◌then◌else◌, nat_eq, slice_index};
ghost use Rattle.picture.specs.Picture.{in_bits, in_digit};

use crate::DIGIT;
use crate::areas::Run;
use court::Court;

// Digits 0 to 9, of 3 by 5 dots: a number for each row, with bits 4, 2 and 1 from the left.
const GLYPHS: [[u8; 5]; 10] = [
    [7, 5, 5, 5, 7],
    [2, 6, 2, 2, 7],
    [7, 1, 7, 4, 7],
    [7, 1, 7, 1, 7],
    [5, 5, 7, 1, 1],
    [7, 4, 7, 1, 7],
    [7, 4, 7, 5, 7],
    [7, 1, 1, 1, 1],
    [7, 5, 7, 5, 7],
    [7, 5, 7, 1, 7],
];

const ROWS: Run = Run { from: 4, to: 9 };

// The first columns of both digits.
const LEFT: usize = 70;

const RIGHT: usize = 87;

fn mark(row: &mut [u8], i: usize, shown: bool)
    requires { i < length row.old }
    ensures { (k : ℕ) → slice_index row.new k ≡ (if nat_eq k i && shown then 4 else slice_index row.old k) }
{
    if shown {
        row[i] = DIGIT;
    }
}

// One row of a digit. A loop over its three bits is no shorter.
#[tactic(auto, using(crate::proofs::Paints::three_marks))]
fn paint_digit(row: &mut [u8], left: usize, bits: u8)
    requires { left + 3 ≤ length row.old }
    ensures { (i : ℕ) → slice_index row.new i ≡ (if in_bits bits left i then 4 else slice_index row.old i) }
{
    mark(row, left, bits & 4 != 0);
    mark(row, left + 1, bits & 2 != 0);
    mark(row, left + 2, bits & 1 != 0);
}

// Both digits, where row j crosses them.
#[tactic(auto, using(crate::proofs::Paints::digit_out), unfolding(crate::specs::Areas::in_run))]
pub(crate) fn paint_score(row: &mut [u8], j: usize, court: Court)
    requires { length row.old ≡ 160 }
    ensures { (i : ℕ) → slice_index row.new i ≡ (if in_digit court.state.score.left 70 i j || in_digit court.state.score.right 87 i j then 4 else slice_index row.old i) }
{
    let score = court.state.score;
    if ROWS.has(j) {
        let k = j - ROWS.from;
        paint_digit(row, LEFT, GLYPHS[usize::from(score.left)][k]);
        paint_digit(row, RIGHT, GLYPHS[usize::from(score.right)][k]);
    }
}
