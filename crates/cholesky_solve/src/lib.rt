// `solve_mut` by a Cholesky factor, a column of right-hand sides at a time or four, so that each entry of the factor is read once for the four.
#![tactic(auto)]

ghost use Rattle.std.specs.Prelude.{◌≡◌, ℕ, ◌+◌, ◌*◌, ◌<◌, ◌≤◌};
ghost use Rattle.matrix.specs.Grid.{load};
ghost use Rattle.matrix.specs.Layouts.{lower, Laid};
ghost use Rattle.matrix.specs.Loop.{for};
ghost use Rattle.matrix.specs.Columns.{at, column, at_column, each_column, Lined};
ghost use Rattle.substitution.specs.inner.Sides.{Sides, RowSides};
ghost use Rattle.cholesky_solve.specs.inner.Engine.{next_row};
ghost use Rattle.cholesky_solve.specs.Triangles.{lower_row, solve_lower, transposed_row, solve_transposed, solve_triangles};

use matrix::Layout;
use substitution::row::{Four, Row};
use substitution::{divide_one, eliminate_two, less_rows};

// ---- L y = b

// Row k + 1 less its product with row k.
fn next_row<R: Row>(y: Layout, a: &[f64], b: &mut [f64], k: usize)
    requires sides { RowSides y R.COLUMNS a.now b.old }
    requires k_bound { k + 1 < y.order }
    ensures { b.new ≡ each_column y.order R.COLUMNS (next_row (load (lower y) a.now) k) b.old }
{
    let n = y.order;
    let x = R::of(b, n, k);
    let c = matrix::get(y, a, k + 1, k);
    R::of(b, n, k + 1).less(c, x).put(b, n, k + 1);
}

// Rows k and k + 1: the rows below get both products in one go.
fn lower_two<R: Row>(y: Layout, a: &[f64], b: &mut [f64], k: usize)
    requires sides { RowSides y R.COLUMNS a.now b.old }
    requires k_bound { k + 1 < y.order }
    ensures { b.new ≡ for k (k + 2) (λ i. each_column y.order R.COLUMNS (lower_row y.order (load (lower y) a.now) i)) b.old }
{
    divide_one::<R>(y, a, b, k);
    next_row::<R>(y, a, b, k);
    divide_one::<R>(y, a, b, k + 1);
    eliminate_two::<R>(y, a, b, k);
}

fn solve_lower<R: Row>(y: Layout, a: &[f64], b: &mut [f64])
    requires { RowSides y R.COLUMNS a.now b.old }
    ensures { b.new ≡ each_column y.order R.COLUMNS (solve_lower y.order (load (lower y) a.now)) b.old }
{
    let n = y.order;
    for pair in 0..n / 2 {
        lower_two::<R>(y, a, b, 2 * pair);
    }
    if n % 2 == 1 {
        divide_one::<R>(y, a, b, n - 1);
    }
}

// ---- Lᵀ x = y

// Row i, and what it becomes; `last` is the row after it.
fn transposed_row<R: Row>(y: Layout, a: &[f64], b: &mut [f64], i: usize, last: R) -> R
    requires sides { RowSides y R.COLUMNS a.now b.old }
    requires i_bound { i + 1 < y.order }
    requires last_value { (j : ℕ) → j < R.COLUMNS → R.number last j ≡ at (column y.order j b.old) (i + 1) }
    ensures columns { b.new ≡ each_column y.order R.COLUMNS (transposed_row y.order (load (lower y) a.now) i) b.old }
    ensures row { (j : ℕ) → j < R.COLUMNS → R.number result j ≡ at (column y.order j b.new) i }
{
    let n = y.order;
    let first = R::of(b, n, i).less(matrix::get(y, a, i + 1, i), last);
    let x = less_rows(y, a, b, i, i + 2, first).over(matrix::get(y, a, i, i));
    x.put(b, n, i);
    x
}

fn solve_transposed<R: Row>(y: Layout, a: &[f64], b: &mut [f64])
    requires { RowSides y R.COLUMNS a.now b.old }
    ensures { b.new ≡ each_column y.order R.COLUMNS (solve_transposed y.order (load (lower y) a.now)) b.old }
{
    let n = y.order;
    if n == 0 {
        return;
    }
    divide_one::<R>(y, a, b, n - 1);
    let mut last = R::of(b, n, n - 1);
    for i in (0..n - 1).rev() {
        last = transposed_row(y, a, b, i, last);
    }
}

// ---- L Lᵀ x = b

fn solve<R: Row>(y: Layout, a: &[f64], b: &mut [f64])
    requires { RowSides y R.COLUMNS a.now b.old }
    ensures { b.new ≡ each_column y.order R.COLUMNS (solve_triangles y.order (load (lower y) a.now)) b.old }
{
    solve_lower::<R>(y, a, b);
    solve_transposed::<R>(y, a, b);
}

pub fn solve_triangles(y: Layout, a: &[f64], b: &mut [f64])
    requires { Sides y a.now b.old }
    ensures { b.new ≡ solve_triangles y.order (load (lower y) a.now) b.old }
{
    solve::<f64>(y, a, b);
}

// ---- of many columns

// As many columns as a row has, from column j on.
fn solve_from<R: Row>(y: Layout, a: &[f64], b: &mut [f64], columns: usize, j: usize)
    requires laid { Laid y a.now }
    requires lined { Lined y.order columns b.old }
    requires j_bound { j + R.COLUMNS ≤ columns }
    ensures { b.new ≡ for j (j + R.COLUMNS) (at_column y.order (solve_triangles y.order (load (lower y) a.now))) b.old }
{
    let n = y.order;
    let at = j * n;
    let end = at + R::COLUMNS * n;
    solve::<R>(y, a, &mut b[at..end]);
}

// Four at a time, and then those that are left.
pub fn solve_sides(y: Layout, a: &[f64], b: &mut [f64], columns: usize)
    requires laid { Laid y a.now }
    requires lined { Lined y.order columns b.old }
    ensures { b.new ≡ each_column y.order columns (solve_triangles y.order (load (lower y) a.now)) b.old }
{
    if columns == 1 {
        solve_from::<f64>(y, a, b, columns, 0);
        return;
    }
    let fours = columns / 4;
    for group in 0..fours {
        solve_from::<Four>(y, a, b, columns, 4 * group);
    }
    for j in 4 * fours..columns {
        solve_from::<f64>(y, a, b, columns, j);
    }
}
