// The columns of a solve: few of them one by one, else together.
ghost use Rattle.std.specs.Prelude.{◌≡◌};
ghost use Rattle.matrix.specs.Grid.{load};
ghost use Rattle.matrix.specs.Layouts.{lower};
ghost use Rattle.matrix.specs.Columns.{each_column, Lined};
ghost use Rattle.lblt_solve_columns.specs.Column.{solve_column};
ghost use Rattle.lblt_solve_columns.specs.inner.Engine.{Readable};

use lblt_solve_columns::{solve_columns, solve_fours};
use lblt_solve_rows::solve_rows;
use matrix::Layout;

pub fn solve(y: Layout, a: &[f64], words: &[u32], b: &mut [f64], columns: usize)
    requires readable { Readable y a.now words.now }
    requires lined { Lined y.order columns b.old }
    requires room_value { y.room ≡ y.order }
    ensures { b.new ≡ each_column y.order columns (solve_column y.order (load (lower y) a.now) words.now) b.old }
{
    if columns < 4 {
        solve_columns(y, a, words, b, columns);
        return;
    }
    together(y, a, words, b, columns);
}

// Four at a time, or row by row where the order is small.
pub fn together(y: Layout, a: &[f64], words: &[u32], b: &mut [f64], columns: usize)
    requires readable { Readable y a.now words.now }
    requires lined { Lined y.order columns b.old }
    requires room_value { y.room ≡ y.order }
    ensures { b.new ≡ each_column y.order columns (solve_column y.order (load (lower y) a.now) words.now) b.old }
{
    let z = y.tight();
    // just four columns are one group of four, which pays from order 5 on
    let small = if columns == 4 { 5 } else { 8 };
    if z.order < small {
        solve_rows(z, a, words, b, columns);
        return;
    }
    solve_fours(z, a, words, b, columns);
}
