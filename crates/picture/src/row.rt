// One row: its background, then what crosses it painted over. Each painter says of every place of the row, also past its end,
// what stands there after: its own byte where a test holds, else what stood there before.
// `row` and `j` are two parameters, since a ghost fact beside a `&mut` was not proved on.
// A row is a part of the lent picture, so its length is asked for; an array in its place came as an Option whose None cannot be.
ghost use Rattle.std.specs.Prelude.{◌≡◌, ℕ, ◌≤◌, ◌&&◌, length, if◌then◌else◌, slice_index};
ghost use Rattle.picture.specs.Areas.{in_run, Covered};
ghost use Rattle.picture.specs.Picture.{on_line, row_of};

use crate::areas::{Area, Areas, Run};
use crate::score::paint_score;
use crate::{BALL, LINE, PADDLE, WIDTH};
use court::Court;

// The rows in which the ends are open.
const GOAL_ROWS: Run = Run { from: 40, to: 80 };

#[tactic(auto, unfolding(crate::specs::Areas::in_run))]
fn paint_run(row: &mut [u8], run: Run, byte: u8)
    requires { (run.from ≤ run.to) × (run.to ≤ length row.old) }
    ensures { (i : ℕ) → slice_index row.new i ≡ (if in_run run i then byte else slice_index row.old i) }
{
    row[run.from..run.to].fill(byte);
}

// The ball or a paddle, where row j crosses it.
fn paint_area(row: &mut [u8], j: usize, area: Area, byte: u8)
    requires { (area.columns.from ≤ area.columns.to) × (area.columns.to ≤ length row.old) }
    ensures { (i : ℕ) → slice_index row.new i ≡ (if in_run area.columns i && in_run area.rows j then byte else slice_index row.old i) }
{
    if area.rows.has(j) {
        paint_run(row, area.columns, byte);
    }
}

// Nothing but the lines. Whatever stood in the row before is gone.
#[tactic(auto, using(crate::proofs::Paints::grounds))]
fn paint_ground(row: &mut [u8], j: usize)
    requires { length row.old ≡ 160 }
    ensures { (i : ℕ) → slice_index row.new i ≡ (if on_line i j then 1 else 0) }
{
    row.fill(0);
    row[WIDTH / 2 - 1] = LINE;
    row[WIDTH / 2] = LINE;
    if !GOAL_ROWS.has(j) {
        row[0] = LINE;
        row[WIDTH - 1] = LINE;
    }
}

// Row j of the picture of a state. Whatever is painted later lies over what was painted before.
#[tactic(auto, using(crate::proofs::Rows::row_from, crate::proofs::Paints::dot_is))]
pub(crate) fn draw_row(row: &mut [u8], j: usize, court: Court, areas: Areas)
    requires { (length row.old ≡ 160) × (Covered court.state areas) }
    ensures { row.new ≡ row_of court.state j 0 160 }
{
    paint_ground(row, j);
    paint_score(row, j, court);
    paint_area(row, j, areas.ball, BALL);
    paint_area(row, j, areas.left, PADDLE);
    paint_area(row, j, areas.right, PADDLE);
}
