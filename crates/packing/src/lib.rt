// The matrix of a further batch, in a packed buffer of its own: the rows of a packed triangle, and new rows laid end to end.
#![tactic(auto)]

ghost use Rattle.std.specs.Prelude.{◌≡◌, ◌≤◌, ◌<◌};
ghost use Rattle.matrix.specs.Grid.{Holds, mask};
ghost use Rattle.matrix.specs.Layouts.{packed, start_of, lower};
ghost use Rattle.strips.specs.inner.Strip.{Strip};
ghost use Rattle.packing.specs.Joined.{new_row, joined};
ghost use Rattle.packing.specs.inner.Sizes.{NewRows, Parts};

use matrix::{Layout, entries};

// Rows r to n of column j, from the new rows, which begin with row m. `to` is where the column starts.
fn put_rows(rows: &[f64], fresh: &mut [f64], m: usize, n: usize, j: usize, r: usize, to: usize)
    requires new_rows { NewRows m n rows.now fresh.old }
    requires j_le_r { (j ≤ r) × (m ≤ r) }
    requires r_le_n { (r ≤ n) × (j < n) }
    requires to_value { to ≡ start_of (packed n) j }
    ensures { Strip to r n (new_row m rows.now j) fresh.old fresh.new }
{
    let mut at = entries(r) - entries(m) + j;
    for i in r..n {
        fresh[i + to] = rows[at];
        at += i + 1;
    }
}

// Column j.
fn join_column(old: &[f64], rows: &[f64], fresh: &mut [f64], m: usize, n: usize, j: usize)
    requires parts { Parts m n old.now rows.now fresh.old }
    requires j_lt_n { j < n }
    ensures { Strip (start_of (packed n) j) j n (λ i. joined m old.now rows.now i j) fresh.old fresh.new }
{
    let to = Layout::packed(n).start(j);
    if m <= j {
        put_rows(rows, fresh, m, n, j, j, to);
        return;
    }
    strips::copy(old, fresh, Layout::packed(m).start(j), to, j, m);
    put_rows(rows, fresh, m, n, j, m, to);
}

// The rows before m from `old`, a packed triangle of order m, and the others from `rows`.
pub fn join(old: &[f64], rows: &[f64], fresh: &mut [f64], m: usize, n: usize)
    requires { Parts m n old.now rows.now fresh.old }
    ensures { Holds (lower (packed n)) fresh.old fresh.new (mask (lower (packed n)) (joined m old.now rows.now)) }
{
    for j in 0..n {
        join_column(old, rows, fresh, m, n, j);
    }
}
