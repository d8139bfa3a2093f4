// `solve_mut` row by row: a step is taken in all columns before the next one, for orders at which a column's own loops are short.
#![tactic(auto, using(matrix::proofs::Columns::column_within, matrix::proofs::Turning::turning_none, matrix::proofs::Turning::turning_more, substitution::proofs::Offsets::offset_small, substitution::proofs::Offsets::offset_within))]

ghost use Rattle.std.specs.Prelude.{◌≡◌, ◌*◌, ◌<◌, length};
ghost use Rattle.matrix.specs.Grid.{load};
ghost use Rattle.matrix.specs.Layouts.{lower};
ghost use Rattle.matrix.specs.Columns.{each_column, Lined};
ghost use Rattle.lblt_solve_columns.specs.Column.{solve_column};
ghost use Rattle.lblt_solve_columns.specs.inner.Engine.{Readable};
ghost use Rattle.lblt_solve_rows.specs.inner.Rows.{less_row};

use lblt_solve_columns::solve;
use lblt_solve_columns::steps::Steps;
use matrix::Layout;

// Row i less x times row k.
fn less_row(b: &mut [f64], n: usize, columns: usize, i: usize, k: usize, x: f64)
    requires b_len { length b.old ≡ n * columns }
    requires i_lt_n { i < n }
    requires k_lt_n { k < n }
    ensures { b.new ≡ each_column n columns (less_row i k x) b.old }
{
    for j in 0..columns {
        let at = j * n;
        b[at + i] = b[at + i] - x * b[at + k];
    }
}

// All columns, row by row. How many they are is known at run time alone, so that a row of them is no `Row`.
#[derive(Clone, Copy)]
struct Rows {
    columns: usize,
}

impl Steps for Rows {
    ghost columns = { λ rows. rows.columns };

    fn swap_rows(self, b: &mut [f64], n: usize, p: usize, q: usize) {
        if p == q {
            return;
        }
        // `b.swap` would compare the places in each column: by it a solve of 64 columns at order 5 takes a tenth longer.
        for j in 0..self.columns {
            let at = j * n;
            let x = b[at + p];
            b[at + p] = b[at + q];
            b[at + q] = x;
        }
    }

    fn eliminate_one(self, y: Layout, a: &[f64], b: &mut [f64], k: usize) {
        let n = y.order;
        let start = y.start(k);
        for i in k + 1..n {
            less_row(b, n, self.columns, i, k, a[i + start]);
        }
    }

    fn eliminate_two(self, y: Layout, a: &[f64], b: &mut [f64], k: usize) {
        let n = y.order;
        let start = y.start(k);
        let next = y.start(k + 1);
        for i in k + 2..n {
            less_row(b, n, self.columns, i, k, a[i + start]);
            less_row(b, n, self.columns, i, k + 1, a[i + next]);
        }
    }

    fn divide_one(self, y: Layout, a: &[f64], b: &mut [f64], k: usize) {
        let n = y.order;
        let d = matrix::get(y, a, k, k);
        for j in 0..self.columns {
            let at = j * n + k;
            b[at] = b[at] / d;
        }
    }

    fn divide_two(self, y: Layout, a: &[f64], b: &mut [f64], k: usize) {
        let n = y.order;
        let d11 = matrix::get(y, a, k, k);
        let d22 = matrix::get(y, a, k + 1, k + 1);
        let d21 = matrix::get(y, a, k + 1, k);
        let det = d11 * d22 - d21 * d21;
        for j in 0..self.columns {
            let at = j * n + k;
            let b_k = b[at];
            let b_k1 = b[at + 1];
            b[at] = (b_k * d22 - b_k1 * d21) / det;
            b[at + 1] = (b_k1 * d11 - b_k * d21) / det;
        }
    }

    fn gather_row(self, y: Layout, a: &[f64], b: &mut [f64], row: usize, from: usize) {
        let n = y.order;
        let start = y.start(row);
        for i in from..n {
            less_row(b, n, self.columns, row, i, a[i + start]);
        }
    }
}

pub fn solve_rows(y: Layout, a: &[f64], words: &[u32], b: &mut [f64], columns: usize)
    requires readable { Readable y a.now words.now }
    requires lined { Lined y.order columns b.old }
    ensures { b.new ≡ each_column y.order columns (solve_column y.order (load (lower y) a.now) words.now) b.old }
{
    solve(Rows { columns }, y, a, words, b);
}
