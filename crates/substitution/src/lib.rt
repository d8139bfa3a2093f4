// The steps that every solve by a lower triangle has, on one column of right-hand sides or on some side by side: each entry of the factor is read once for
// all of these.
#![tactic(auto, using(crate::proofs::Offsets::offset_small, crate::proofs::Offsets::offset_within))]

ghost use Rattle.std.specs.Prelude.{◌≡◌, ℕ, ◌+◌, ◌<◌, ◌≤◌};
ghost use Rattle.matrix.specs.Grid.{load};
ghost use Rattle.matrix.specs.Layouts.{lower};
ghost use Rattle.matrix.specs.Loop.{for};
ghost use Rattle.matrix.specs.Columns.{column, each_column};
ghost use Rattle.substitution.specs.Steps.{eliminate_one, eliminate_two, divide_one, less_product, gather_row};
ghost use Rattle.substitution.specs.inner.Sides.{RowSides};

pub mod row;

use matrix::Layout;
use row::Row;

// ---- forwards

pub fn eliminate_one<R: Row>(y: Layout, a: &[f64], b: &mut [f64], k: usize)
    requires sides { RowSides y R.COLUMNS a.now b.old }
    requires k_lt_order { k < y.order }
    ensures { b.new ≡ each_column y.order R.COLUMNS (eliminate_one y.order (load (lower y) a.now) k) b.old }
{
    let n = y.order;
    let start = y.start(k);
    let x = R::of(b, n, k);
    for i in k + 1..n {
        R::of(b, n, i).less(a[i + start], x).put(b, n, i);
    }
}

pub fn eliminate_two<R: Row>(y: Layout, a: &[f64], b: &mut [f64], k: usize)
    requires sides { RowSides y R.COLUMNS a.now b.old }
    requires k_bound { k + 1 < y.order }
    ensures { b.new ≡ each_column y.order R.COLUMNS (eliminate_two y.order (load (lower y) a.now) k) b.old }
{
    let n = y.order;
    let start = y.start(k);
    let next = y.start(k + 1);
    let x = R::of(b, n, k);
    let z = R::of(b, n, k + 1);
    for i in k + 2..n {
        let once = R::of(b, n, i).less(a[i + start], x);
        once.less(a[i + next], z).put(b, n, i);
    }
}

pub fn divide_one<R: Row>(y: Layout, a: &[f64], b: &mut [f64], k: usize)
    requires sides { RowSides y R.COLUMNS a.now b.old }
    requires k_lt_order { k < y.order }
    ensures { b.new ≡ each_column y.order R.COLUMNS (divide_one (load (lower y) a.now) k) b.old }
{
    let n = y.order;
    R::of(b, n, k).over(matrix::get(y, a, k, k)).put(b, n, k);
}

// ---- back

// x less the products of the rows from `from` on with column `row` of the factor.
pub fn less_rows<R: Row>(y: Layout, a: &[f64], b: &[f64], row: usize, from: usize, x: R) -> R
    requires sides { RowSides y R.COLUMNS a.now b.now }
    requires row_lt_from { row < from }
    requires from_le_order { from ≤ y.order }
    ensures { (j : ℕ) → j < R.COLUMNS → R.number result j ≡ for from y.order (less_product (load (lower y) a.now) (column y.order j b.now) row) (R.number x j) }
{
    let n = y.order;
    let start = y.start(row);
    let mut less = x;
    for i in from..n {
        less = less.less(a[i + start], R::of(b, n, i));
    }
    less
}

pub fn gather_row<R: Row>(y: Layout, a: &[f64], b: &mut [f64], row: usize, from: usize)
    requires sides { RowSides y R.COLUMNS a.now b.old }
    requires row_lt_from { row < from }
    requires from_le_order { from ≤ y.order }
    ensures { b.new ≡ each_column y.order R.COLUMNS (gather_row y.order (load (lower y) a.now) row from) b.old }
{
    let n = y.order;
    let x = R::of(b, n, row);
    less_rows(y, a, b, row, from, x).put(b, n, row);
}
