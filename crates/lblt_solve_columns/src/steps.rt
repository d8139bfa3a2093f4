// The steps of the solve, on columns of right-hand sides that are taken together.

ghost use Rattle.std.specs.Prelude.{◌≡◌, ℕ, ◌+◌, ◌*◌, ◌<◌, ◌≤◌, length};
ghost use Rattle.matrix.specs.Grid.{load};
ghost use Rattle.matrix.specs.Layouts.{lower};
ghost use Rattle.matrix.specs.Columns.{each_column};
ghost use Rattle.substitution.specs.Steps.{eliminate_one, eliminate_two, divide_one, gather_row};
ghost use Rattle.substitution.specs.inner.Sides.{RowSides};
ghost use Rattle.lblt_solve_columns.specs.Column.{swap_rows, divide_two};

use matrix::Layout;
use std::marker::PhantomData;
use substitution::row::Row;

pub trait Steps: Copy {
    // how many columns
    ghost columns: { Self → ℕ };

    fn swap_rows(self, b: &mut [f64], n: usize, p: usize, q: usize)
        requires b_len { length b.old ≡ n * columns self }
        requires p_lt_n { p < n }
        requires q_lt_n { q < n }
        ensures { b.new ≡ each_column n (columns self) (λ l. swap_rows l p q) b.old };

    // ---- forwards

    fn eliminate_one(self, y: Layout, a: &[f64], b: &mut [f64], k: usize)
        requires sides { RowSides y (columns self) a.now b.old }
        requires k_lt_order { k < y.order }
        ensures { b.new ≡ each_column y.order (columns self) (eliminate_one y.order (load (lower y) a.now) k) b.old };

    fn eliminate_two(self, y: Layout, a: &[f64], b: &mut [f64], k: usize)
        requires sides { RowSides y (columns self) a.now b.old }
        requires k_bound { k + 1 < y.order }
        ensures { b.new ≡ each_column y.order (columns self) (eliminate_two y.order (load (lower y) a.now) k) b.old };

    fn divide_one(self, y: Layout, a: &[f64], b: &mut [f64], k: usize)
        requires sides { RowSides y (columns self) a.now b.old }
        requires k_lt_order { k < y.order }
        ensures { b.new ≡ each_column y.order (columns self) (divide_one (load (lower y) a.now) k) b.old };

    fn divide_two(self, y: Layout, a: &[f64], b: &mut [f64], k: usize)
        requires sides { RowSides y (columns self) a.now b.old }
        requires k_bound { k + 1 < y.order }
        ensures { b.new ≡ each_column y.order (columns self) (divide_two (load (lower y) a.now) k) b.old };

    // ---- back

    fn gather_row(self, y: Layout, a: &[f64], b: &mut [f64], row: usize, from: usize)
        requires sides { RowSides y (columns self) a.now b.old }
        requires row_lt_from { row < from }
        requires from_le_order { from ≤ y.order }
        ensures { b.new ≡ each_column y.order (columns self) (gather_row y.order (load (lower y) a.now) row from) b.old };
}

// The columns that a row goes across.
#[derive(Clone, Copy)]
pub struct Beside<R> {
    row: PhantomData<R>,
}

impl<R: Row> Beside<R> {
    pub fn new() -> Beside<R> {
        Beside { row: PhantomData }
    }
}

impl<R: Row> Steps for Beside<R> {
    ghost columns = { λ _. R.COLUMNS };

    fn swap_rows(self, b: &mut [f64], n: usize, p: usize, q: usize) {
        if p == q {
            return;
        }
        let x = R::of(b, n, p);
        R::of(b, n, q).put(b, n, p);
        x.put(b, n, q);
    }

    fn eliminate_one(self, y: Layout, a: &[f64], b: &mut [f64], k: usize) {
        substitution::eliminate_one::<R>(y, a, b, k);
    }

    fn eliminate_two(self, y: Layout, a: &[f64], b: &mut [f64], k: usize) {
        substitution::eliminate_two::<R>(y, a, b, k);
    }

    fn divide_one(self, y: Layout, a: &[f64], b: &mut [f64], k: usize) {
        substitution::divide_one::<R>(y, a, b, k);
    }

    fn divide_two(self, y: Layout, a: &[f64], b: &mut [f64], k: usize) {
        let n = y.order;
        let d11 = matrix::get(y, a, k, k);
        let d22 = matrix::get(y, a, k + 1, k + 1);
        let d21 = matrix::get(y, a, k + 1, k);
        let det = d11 * d22 - d21 * d21;
        let x = R::of(b, n, k);
        let z = R::of(b, n, k + 1);
        x.cross(d22, z, d21).over(det).put(b, n, k);
        z.cross(d11, x, d21).over(det).put(b, n, k + 1);
    }

    fn gather_row(self, y: Layout, a: &[f64], b: &mut [f64], row: usize, from: usize) {
        substitution::gather_row::<R>(y, a, b, row, from);
    }
}
