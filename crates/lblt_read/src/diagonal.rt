// `determinant` and `d`, from the diagonal blocks.
ghost use Rattle.std.specs.Prelude.{◌≡◌, ◌+◌, ◌<◌};
ghost use Rattle.matrix.specs.Grid.{load, Holds};
ghost use Rattle.matrix.specs.Layouts.{lower, square, Fills, Laid};
ghost use Rattle.pivots.specs.Blocks.{by_size, rows_of, forwards};
ghost use Rattle.lblt_solve_columns.specs.Column.{block_determinant};
ghost use Rattle.lblt_read.specs.Diagonal.{determinant_of, diagonal_two, diagonal_block, d_of};
ghost use Rattle.lblt_solve_columns.specs.inner.Engine.{Readable};
ghost use Rattle.pivots.specs.inner.Block.{BlockAt};
ghost use Rattle.lblt_read.specs.inner.Engine.{Squared};

use crate::square;
use matrix::Layout;

fn block_determinant(y: Layout, a: &[f64], k: usize) -> f64
    requires laid { Laid y a.now }
    requires k_bound { k + 1 < y.order }
    ensures { result ≡ block_determinant (load (lower y) a.now) k }
{
    let d21 = matrix::get(y, a, k + 1, k);
    matrix::get(y, a, k, k) * matrix::get(y, a, k + 1, k + 1) - d21 * d21
}

// The determinant of the block at row k, and the row after the block.
fn determinant_at(y: Layout, a: &[f64], words: &[u32], k: usize) -> (f64, usize)
    requires laid { Laid y a.now }
    requires block_at { BlockAt y.order words.now k }
    ensures determinant { result.0 ≡ by_size words.now k (load (lower y) a.now k k) (block_determinant (load (lower y) a.now) k) }
    ensures next { result.1 ≡ k + rows_of words.now k }
{
    if pivots::size(words, k) == 1 {
        (matrix::get(y, a, k, k), k + 1)
    } else {
        (block_determinant(y, a, k), k + 2)
    }
}

pub fn product(y: Layout, a: &[f64], words: &[u32]) -> f64
    requires { Readable y a.now words.now }
    ensures { result ≡ determinant_of y.order (load (lower y) a.now) words.now }
{
    let mut x = 1.0;
    let mut k = 0;
    // A `while`: a block has one or two rows, as the record says, so that no range goes over them.
    while k < y.order {
        let (determinant, next) = determinant_at(y, a, words, k);
        x *= determinant;
        k = next;
    }
    x
}

// Four entries of a block of size 2.
fn put_two(y: Layout, a: &[f64], d: &mut [f64], k: usize)
    requires laid { Laid y a.now }
    requires squared { Squared y.order d.old }
    requires k_bound { k + 1 < y.order }
    ensures { Holds (square y.order) d.old d.new (diagonal_two (load (lower y) a.now) k (load (square y.order) d.old)) }
{
    let n = y.order;
    let d21 = matrix::get(y, a, k + 1, k);
    let d11 = matrix::get(y, a, k, k);
    let d22 = matrix::get(y, a, k + 1, k + 1);
    square::put(d, n, k, k, d11);
    square::put(d, n, k + 1, k, d21);
    square::put(d, n, k, k + 1, d21);
    square::put(d, n, k + 1, k + 1, d22);
}

fn put_block(y: Layout, a: &[f64], words: &[u32], d: &mut [f64], k: usize)
    requires laid { Laid y a.now }
    requires squared { Squared y.order d.old }
    requires block_at { BlockAt y.order words.now k }
    ensures { Holds (square y.order) d.old d.new (diagonal_block (load (lower y) a.now) words.now k (load (square y.order) d.old)) }
{
    if pivots::size(words, k) == 1 {
        square::put(d, y.order, k, k, matrix::get(y, a, k, k));
    } else {
        put_two(y, a, d, k);
    }
}

fn put_blocks(y: Layout, a: &[f64], words: &[u32], d: &mut [f64])
    requires readable { Readable y a.now words.now }
    requires squared { Squared y.order d.old }
    ensures { Fills y.order d.new (forwards y.order words.now (diagonal_block (load (lower y) a.now) words.now) (load (square y.order) d.old)) }
{
    let mut k = 0;
    // A `while`: a block has one or two rows, as the record says, so that no range goes over them.
    while k < y.order {
        put_block(y, a, words, d, k);
        k += pivots::size(words, k);
    }
}

pub fn fill(y: Layout, a: &[f64], words: &[u32], d: &mut [f64])
    requires readable { Readable y a.now words.now }
    requires squared { Squared y.order d.old }
    ensures { Fills y.order d.new (d_of y.order (load (lower y) a.now) words.now) }
{
    square::clear(d, y.order);
    put_blocks(y, a, words, d);
}
