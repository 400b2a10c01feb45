// Rows in a flat lent table: write a row, take one out, find one. The width is a parameter, so these
// serve every table. No public function has a `requires`: where the rows do not lie within the table, it is
// left as it was. How many rows are used is a parameter too, and no part of a table's type: the tables are lent as flat
// slices, and their counts stand in the desk.
#![tactic(auto)]

pub mod rows;

ghost use Rattle.std.specs.Prelude.{◌≡◌, ◌*◌, ◌≤◌, ◌<◌, leb, length};
ghost use Rattle.rules.specs.Tables.{without_row};
ghost use Rattle.tables.specs.Rows.{put_at, taken_out, place_of};

// Writes the row's numbers into the table from place `at` on. With `at` past the used rows this adds
// a row; with `at` at a used row it changes that row.
#[tactic(auto, using(crate::proofs::Edits::put_none, crate::proofs::Edits::put_part))]
pub fn put_row(t: &mut [u64], at: usize, row: &[u64])
    ensures { t.new ≡ put_at at row.now t.old }
{
    if t.len() < row.len() || t.len() - row.len() < at {
        return;
    }
    t[at..at + row.len()].copy_from_slice(row);
}

// Takes row i of the n used rows out. The rows before it are not written: what is lent on is the part
// of the table from row i on.
#[tactic(auto, using(crate::proofs::Edits::taken_not, crate::proofs::Edits::taken_tail, crate::proofs::Edits::tail_fits))]
pub fn take_out(t: &mut [u64], width: usize, i: usize, n: usize)
    ensures { t.new ≡ taken_out width i n t.old }
{
    if !lie_within(t.len(), width, n) || n <= i {
        return;
    }
    let from = i * width;
    close_up(&mut t[from..], width, n - i);
}

// The place of the first of the n used rows that has just these numbers, or n: so the definition (`place_of`) has it, and
// what is done with a place is said of that number.
pub fn find_row(t: &[u64], n: usize, row: &[u64]) -> usize
    ensures { result ≡ place_of row.now n t.now }
{
    let width = row.len();
    if !lie_within(t.len(), width, n) {
        return n;
    }
    (0..n)
        .find(|&i| t[i * width..].starts_with(row))
        .unwrap_or(n)
}

// Whether n rows of the width take up no more than len numbers.
fn lie_within(len: usize, width: usize, n: usize) -> bool
    ensures { result ≡ leb (n * width) len }
{
    width == 0 || n <= len / width
}

// The first of the part's rows leaves: the others move up, and the last becomes zeros.
#[tactic(auto, using(crate::proofs::Edits::closed_up))]
fn close_up(t: &mut [u64], width: usize, rows: usize)
    requires rows_nonzero { 0 < rows }
    requires width_in_bounds { rows * width ≤ length t.old }
    ensures { t.new ≡ without_row width 0 rows t.old }
{
    let last = (rows - 1) * width;
    t.copy_within(width..last + width, 0);
    t[last..last + width].fill(0);
}
