// `solve_mut`, a column of right-hand sides at a time or four, so that each entry of the factor is read once for the four.
#![tactic(auto)]

ghost use Rattle.std.specs.Prelude.{◌≡◌, ◌+◌, ◌-◌, ◌<◌, ◌≤◌};
ghost use Rattle.matrix.specs.Grid.{load};
ghost use Rattle.matrix.specs.Layouts.{lower};
ghost use Rattle.matrix.specs.Loop.{for};
ghost use Rattle.matrix.specs.Columns.{at_column, each_column, Lined};
ghost use Rattle.pivots.specs.Blocks.{rows_of, forwards, backwards};
ghost use Rattle.pivots.specs.inner.Block.{BlockAt, BlockBefore};
ghost use Rattle.substitution.specs.inner.Sides.{Sides, RowSides};
ghost use Rattle.lblt_solve_columns.specs.Column.{backward_block, solve_column};
ghost use Rattle.lblt_solve_columns.specs.inner.Engine.{Readable, Moved, reduce_block};

pub mod steps;

use matrix::Layout;
use steps::{Beside, Steps};
use substitution::row::{Four, Row};

// ---- L y = Pᵀ b and D z = y, block by block

// The next block's row comes back.
#[tactic(auto, using(pivots::proofs::Walks::reads_two))]
fn reduce_block<S: Steps>(
    steps: S,
    y: Layout,
    a: &[f64],
    words: &[u32],
    b: &mut [f64],
    k: usize,
) -> usize
    requires sides { RowSides y (S.columns steps) a.now b.old }
    requires block_at { BlockAt y.order words.now k }
    ensures { Moved (k + rows_of words.now k) result (each_column y.order (S.columns steps) (reduce_block y.order (load (lower y) a.now) words.now k) b.old) b.new }
{
    let n = y.order;
    let p = pivots::index(words, k);
    if pivots::size(words, k) == 1 {
        steps.swap_rows(b, n, k, p);
        steps.eliminate_one(y, a, b, k);
        steps.divide_one(y, a, b, k);
        return k + 1;
    }
    steps.swap_rows(b, n, k + 1, p);
    steps.eliminate_two(y, a, b, k);
    steps.divide_two(y, a, b, k);
    k + 2
}

fn reduce<S: Steps>(steps: S, y: Layout, a: &[f64], words: &[u32], b: &mut [f64])
    requires readable { Readable y a.now words.now }
    requires sides { RowSides y (S.columns steps) a.now b.old }
    ensures { b.new ≡ each_column y.order (S.columns steps) (forwards y.order words.now (reduce_block y.order (load (lower y) a.now) words.now)) b.old }
{
    let n = y.order;
    let mut k: usize = 0;
    // A `while`: a block has one or two rows, as the record says, so that no range goes over them.
    while k < n {
        k = reduce_block(steps, y, a, words, b, k);
    }
}

// ---- Lᵀ x = z

// The row where the block starts comes back.
#[tactic(auto, using(pivots::proofs::Walks::reads_two))]
fn backward_block<S: Steps>(
    steps: S,
    y: Layout,
    a: &[f64],
    words: &[u32],
    b: &mut [f64],
    k: usize,
) -> usize
    requires sides { RowSides y (S.columns steps) a.now b.old }
    requires block_before { BlockBefore y.order words.now k }
    ensures { Moved (k - rows_of words.now (k - 1)) result (each_column y.order (S.columns steps) (backward_block y.order (load (lower y) a.now) words.now k) b.old) b.new }
{
    let n = y.order;
    let k1 = k - 1;
    let p = pivots::index(words, k1);
    steps.gather_row(y, a, b, k1, k);
    if pivots::size(words, k1) == 1 {
        steps.swap_rows(b, n, k1, p);
        return k - 1;
    }
    steps.gather_row(y, a, b, k - 2, k);
    steps.swap_rows(b, n, k1, p);
    k - 2
}

fn backward<S: Steps>(steps: S, y: Layout, a: &[f64], words: &[u32], b: &mut [f64])
    requires readable { Readable y a.now words.now }
    requires sides { RowSides y (S.columns steps) a.now b.old }
    ensures { b.new ≡ each_column y.order (S.columns steps) (backwards y.order words.now (backward_block y.order (load (lower y) a.now) words.now)) b.old }
{
    let mut k = y.order;
    // A `while`: a block has one or two rows, as the record says, so that no range goes over them.
    while 0 < k {
        k = backward_block(steps, y, a, words, b, k);
    }
}

// ---- A x = b

pub fn solve<S: Steps>(steps: S, y: Layout, a: &[f64], words: &[u32], b: &mut [f64])
    requires readable { Readable y a.now words.now }
    requires sides { RowSides y (S.columns steps) a.now b.old }
    ensures { b.new ≡ each_column y.order (S.columns steps) (solve_column y.order (load (lower y) a.now) words.now) b.old }
{
    reduce(steps, y, a, words, b);
    backward(steps, y, a, words, b);
}

pub fn solve_column(y: Layout, a: &[f64], words: &[u32], b: &mut [f64])
    requires readable { Readable y a.now words.now }
    requires sides { Sides y a.now b.old }
    ensures { b.new ≡ solve_column y.order (load (lower y) a.now) words.now b.old }
{
    solve(Beside::<f64>::new(), y, a, words, b);
}

// ---- of many columns

// As many columns as a row has, from column j on.
fn solve_from<R: Row>(y: Layout, a: &[f64], words: &[u32], b: &mut [f64], columns: usize, j: usize)
    requires readable { Readable y a.now words.now }
    requires lined { Lined y.order columns b.old }
    requires j_bound { j + R.COLUMNS ≤ columns }
    ensures { b.new ≡ for j (j + R.COLUMNS) (at_column y.order (solve_column y.order (load (lower y) a.now) words.now)) b.old }
{
    let n = y.order;
    let at = j * n;
    let end = at + R::COLUMNS * n;
    solve(Beside::<R>::new(), y, a, words, &mut b[at..end]);
}

// Column j.
pub fn solve_at(y: Layout, a: &[f64], words: &[u32], b: &mut [f64], columns: usize, j: usize)
    requires readable { Readable y a.now words.now }
    requires lined { Lined y.order columns b.old }
    requires j_lt_columns { j < columns }
    ensures { b.new ≡ at_column y.order (solve_column y.order (load (lower y) a.now) words.now) j b.old }
{
    solve_from::<f64>(y, a, words, b, columns, j);
}

// One by one.
pub fn solve_columns(y: Layout, a: &[f64], words: &[u32], b: &mut [f64], columns: usize)
    requires readable { Readable y a.now words.now }
    requires lined { Lined y.order columns b.old }
    ensures { b.new ≡ each_column y.order columns (solve_column y.order (load (lower y) a.now) words.now) b.old }
{
    for j in 0..columns {
        solve_at(y, a, words, b, columns, j);
    }
}

// Four at a time, and then those that are left.
pub fn solve_fours(y: Layout, a: &[f64], words: &[u32], b: &mut [f64], columns: usize)
    requires readable { Readable y a.now words.now }
    requires lined { Lined y.order columns b.old }
    ensures { b.new ≡ each_column y.order columns (solve_column y.order (load (lower y) a.now) words.now) b.old }
{
    let fours = columns / 4;
    for group in 0..fours {
        solve_from::<Four>(y, a, words, b, columns, 4 * group);
    }
    for j in 4 * fours..columns {
        solve_at(y, a, words, b, columns, j);
    }
}
