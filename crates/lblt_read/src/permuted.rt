// `l_permuted`, from the identity by columns.
ghost use Rattle.std.specs.Prelude.{◌+◌, ◌<◌, ◌≤◌};
ghost use Rattle.matrix.specs.Grid.{load, Holds};
ghost use Rattle.matrix.specs.Layouts.{lower, square, Fills, Laid};
ghost use Rattle.pivots.specs.Blocks.{forwards};
ghost use Rattle.lblt_read.specs.Permuted.{gather_column, permuted_block, l_permuted_of};
ghost use Rattle.lblt_solve_columns.specs.inner.Engine.{Readable};
ghost use Rattle.pivots.specs.inner.Block.{BlockAt};
ghost use Rattle.lblt_read.specs.inner.Engine.{Squared};

use crate::square;
use matrix::Layout;
use strips::Source;

// Column k plus each later column i, from `from` on, times a(i, k).
fn gather_column(y: Layout, a: &[f64], l: &mut [f64], k: usize, from: usize)
    requires laid { Laid y a.now }
    requires squared { Squared y.order l.old }
    requires k_lt_from { k < from }
    requires from_le_order { from ≤ y.order }
    ensures { Holds (square y.order) l.old l.new (gather_column y.order (load (lower y) a.now) k from (load (square y.order) l.old)) }
{
    let n = y.order;
    let start = y.start(k);
    for i in from..n {
        let s = Source {
            start: i * n,
            scale: a[i + start],
        };
        strips::axpy(l, k * n, 0, n, [s]);
    }
}

fn permute_block(y: Layout, a: &[f64], words: &[u32], l: &mut [f64], k: usize)
    requires laid { Laid y a.now }
    requires squared { Squared y.order l.old }
    requires block_at { BlockAt y.order words.now k }
    ensures { Holds (square y.order) l.old l.new (permuted_block y.order (load (lower y) a.now) words.now k (load (square y.order) l.old)) }
{
    let n = y.order;
    let p = pivots::index(words, k);
    if pivots::size(words, k) == 1 {
        square::swap_columns(l, n, k, p);
        gather_column(y, a, l, k, k + 1);
    } else {
        square::swap_columns(l, n, k + 1, p);
        gather_column(y, a, l, k, k + 2);
        gather_column(y, a, l, k + 1, k + 2);
    }
}

fn permute_blocks(y: Layout, a: &[f64], words: &[u32], l: &mut [f64])
    requires readable { Readable y a.now words.now }
    requires squared { Squared y.order l.old }
    ensures { Fills y.order l.new (forwards y.order words.now (permuted_block y.order (load (lower y) a.now) words.now) (load (square y.order) l.old)) }
{
    let mut k = 0;
    // A `while`: a block has one or two rows, as the record says, so that no range goes over them.
    while k < y.order {
        permute_block(y, a, words, l, k);
        k += pivots::size(words, k);
    }
}

pub fn fill(y: Layout, a: &[f64], words: &[u32], l: &mut [f64])
    requires readable { Readable y a.now words.now }
    requires squared { Squared y.order l.old }
    ensures { Fills y.order l.new (l_permuted_of y.order (load (lower y) a.now) words.now) }
{
    square::put_identity(l, y.order);
    permute_blocks(y, a, words, l);
}
