// The update by a pivot of size 2.
ghost use Rattle.std.specs.Prelude.{◌≡◌, ◌+◌, ◌≤◌, ◌<◌};
ghost use Rattle.matrix.specs.Grid.{Holds, load};
ghost use Rattle.matrix.specs.Layouts.{lower, Laid};
ghost use Rattle.matrix.specs.Loop.{for};
ghost use Rattle.lblt_pivot.specs.inner.Engine.{work_by, work_at, worked_at, store_work, rank2_pair_at};
ghost use Rattle.lblt_pivot.specs.Update.{block_at, multiplier, rank2, update2};

use crate::by_pairs::{self, Pair, Update};
use leaf::abs;
use matrix::{Layout, get, put};

// The four scaled numbers of a pivot of size 2.
#[derive(Clone, Copy)]
pub struct Block {
    pub d: f64,
    pub d11: f64,
    pub d22: f64,
    pub d21: f64,
}

// What a row takes from the two columns of a pivot of size 2.
#[derive(Clone, Copy)]
pub struct Work {
    pub w1: f64,
    pub w2: f64,
}

impl Block {
    fn multiplier(self) -> f64
        ensures { result ≡ multiplier self }
    {
        1.0 / (self.d * (self.d11 * self.d22 - 1.0))
    }

    // w1 and w2 of a row, from its entries in columns k and k + 1.
    pub fn work(self, ajk: f64, ajk1: f64) -> Work
        ensures { result ≡ work_by self ajk ajk1 }
    {
        let multiplier = self.multiplier();
        Work {
            w1: (ajk * self.d11 - ajk1 * self.d21) * multiplier,
            w2: (ajk1 * self.d22 - ajk * self.d21) * multiplier,
        }
    }
}

fn block_at(y: Layout, a: &[f64], k: usize) -> Block
    requires laid { Laid y a.now }
    requires k_bound { k + 1 < y.order }
    ensures { result ≡ block_at (load (lower y) a.now) k }
{
    let d21 = get(y, a, k + 1, k);
    let d = abs(d21);
    Block {
        d,
        d11: get(y, a, k + 1, k + 1) / d,
        d22: get(y, a, k, k) / d,
        d21: d21 / d,
    }
}

fn work_at(y: Layout, a: &[f64], k: usize, b: Block, j: usize) -> Work
    requires laid { Laid y a.now }
    requires k_bound { k + 1 ≤ j }
    requires j_lt_order { j < y.order }
    ensures { result ≡ work_at (load (lower y) a.now) k b j }
{
    b.work(get(y, a, j, k), get(y, a, j, k + 1))
}

fn rank2_at(y: Layout, a: &mut [f64], k: usize, j: usize, w: Work, i: usize)
    requires laid { Laid y a.old }
    requires k_bound { k + 1 ≤ j }
    requires j_le_i { j ≤ i }
    requires i_lt_order { i < y.order }
    ensures { Holds (lower y) a.old a.new (worked_at k j w i (load (lower y) a.old)) }
{
    put(
        y,
        a,
        i,
        j,
        get(y, a, i, j) - get(y, a, i, k) * w.w1 - get(y, a, i, k + 1) * w.w2,
    );
}

fn rank2_column(y: Layout, a: &mut [f64], k: usize, j: usize, w: Work)
    requires laid { Laid y a.old }
    requires k_bound { k + 1 ≤ j }
    requires j_lt_order { j < y.order }
    ensures { Holds (lower y) a.old a.new (for j y.order (worked_at k j w) (load (lower y) a.old)) }
{
    let n = y.order;
    for i in j..n {
        rank2_at(y, a, k, j, w, i);
    }
}

fn store_work(y: Layout, a: &mut [f64], k: usize, j: usize, w: Work)
    requires laid { Laid y a.old }
    requires k_bound { k + 1 ≤ j }
    requires j_lt_order { j < y.order }
    ensures { Holds (lower y) a.old a.new (store_work k j w (load (lower y) a.old)) }
{
    put(y, a, j, k, w.w1);
    put(y, a, j, k + 1, w.w2);
}

// The scaled numbers of the pivot at rows k and k + 1.
#[derive(Clone, Copy)]
struct Rank2 {
    k: usize,
    b: Block,
}

// What rows j and j + 1 take from columns k and k + 1.
#[derive(Clone, Copy)]
struct Pair2 {
    k: usize,
    w: Work,
    v: Work,
}

impl Update for Rank2 {
    ghost first = { λ u. u.k + 2 };

    ghost column = { λ u n. rank2 n u.k u.b };

    // Column j, then row j of columns k and k + 1.
    fn one(self, y: Layout, a: &mut [f64], j: usize) {
        let w = work_at(y, a, self.k, self.b, j);
        rank2_column(y, a, self.k, j, w);
        store_work(y, a, self.k, j, w);
    }

    fn two(self, y: Layout, a: &mut [f64], j: usize) {
        let k = self.k;
        let w = work_at(y, a, k, self.b, j);
        let v = work_at(y, a, k, self.b, j + 1);
        rank2_at(y, a, k, j, w, j);
        by_pairs::rows(Pair2 { k, w, v }, y, a, j);
        store_work(y, a, k, j, w);
        store_work(y, a, k, j + 1, v);
    }
}

impl Pair for Pair2 {
    ghost is_before = { λ p j. p.k + 1 < j };

    ghost change = { λ p j. rank2_pair_at p.k j p.w p.v };

    fn at(self, y: Layout, a: &mut [f64], j: usize, i: usize) {
        let aik = get(y, a, i, self.k);
        let aik1 = get(y, a, i, self.k + 1);
        put(
            y,
            a,
            i,
            j,
            get(y, a, i, j) - aik * self.w.w1 - aik1 * self.w.w2,
        );
        put(
            y,
            a,
            i,
            j + 1,
            get(y, a, i, j + 1) - aik * self.v.w1 - aik1 * self.v.w2,
        );
    }
}

pub fn update2(y: Layout, a: &mut [f64], k: usize)
    requires laid { Laid y a.old }
    requires k_bound { k + 1 < y.order }
    ensures { Holds (lower y) a.old a.new (update2 y.order k (load (lower y) a.old)) }
{
    let b = block_at(y, a, k);
    by_pairs::all(Rank2 { k, b }, y, a, k + 2);
}
