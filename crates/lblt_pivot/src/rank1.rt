// The update by a pivot of size 1.
ghost use Rattle.std.specs.Prelude.{◌+◌, ◌≤◌, ◌<◌};
ghost use Rattle.matrix.specs.Grid.{Holds, load};
ghost use Rattle.matrix.specs.Layouts.{lower, Laid};
ghost use Rattle.matrix.specs.Loop.{for};
ghost use Rattle.lblt_pivot.specs.inner.Engine.{rank1_pair_at};
ghost use Rattle.lblt_pivot.specs.Update.{rank1_at, rank1, scale_at, update1};

use crate::by_pairs::{self, Pair, Update};
use matrix::{Layout, get, put};

fn rank1_at(y: Layout, a: &mut [f64], k: usize, j: usize, inv: f64, ajk: f64, i: usize)
    requires laid { Laid y a.old }
    requires k_le_j { k ≤ j }
    requires j_le_i { j ≤ i }
    requires i_lt_order { i < y.order }
    ensures { Holds (lower y) a.old a.new (rank1_at k j inv ajk i (load (lower y) a.old)) }
{
    put(y, a, i, j, get(y, a, i, j) + get(y, a, i, k) * (-inv) * ajk);
}

// 1 / a(k, k) of the pivot at row k.
#[derive(Clone, Copy)]
struct Rank1 {
    k: usize,
    inv: f64,
}

// Entries j and j + 1 of the pivot's column.
#[derive(Clone, Copy)]
struct Pair1 {
    pivot: Rank1,
    ajk: f64,
    aj1k: f64,
}

impl Update for Rank1 {
    ghost first = { λ u. u.k + 1 };

    ghost column = { λ u n. rank1 n u.k u.inv };

    fn one(self, y: Layout, a: &mut [f64], j: usize) {
        let ajk = get(y, a, j, self.k);
        for i in j..y.order {
            rank1_at(y, a, self.k, j, self.inv, ajk, i);
        }
    }

    fn two(self, y: Layout, a: &mut [f64], j: usize) {
        let pair = Pair1 {
            pivot: self,
            ajk: get(y, a, j, self.k),
            aj1k: get(y, a, j + 1, self.k),
        };
        rank1_at(y, a, self.k, j, self.inv, pair.ajk, j);
        by_pairs::rows(pair, y, a, j);
    }
}

impl Pair for Pair1 {
    ghost is_before = { λ p j. p.pivot.k < j };

    ghost change = { λ p j. rank1_pair_at p.pivot.k j p.pivot.inv p.ajk p.aj1k };

    fn at(self, y: Layout, a: &mut [f64], j: usize, i: usize) {
        let scaled = get(y, a, i, self.pivot.k) * (-self.pivot.inv);
        put(y, a, i, j, get(y, a, i, j) + scaled * self.ajk);
        put(y, a, i, j + 1, get(y, a, i, j + 1) + scaled * self.aj1k);
    }
}

fn scale_at(y: Layout, a: &mut [f64], k: usize, inv: f64, i: usize)
    requires laid { Laid y a.old }
    requires k_le_i { k ≤ i }
    requires i_lt_order { i < y.order }
    ensures { Holds (lower y) a.old a.new (scale_at k inv i (load (lower y) a.old)) }
{
    put(y, a, i, k, get(y, a, i, k) * inv);
}

fn scale_all(y: Layout, a: &mut [f64], k: usize, inv: f64)
    requires laid { Laid y a.old }
    requires k_lt_order { k < y.order }
    ensures { Holds (lower y) a.old a.new (for (k + 1) y.order (scale_at k inv) (load (lower y) a.old)) }
{
    let n = y.order;
    for i in (k + 1)..n {
        scale_at(y, a, k, inv, i);
    }
}

pub fn update1(y: Layout, a: &mut [f64], k: usize)
    requires laid { Laid y a.old }
    requires k_lt_order { k < y.order }
    ensures { Holds (lower y) a.old a.new (update1 y.order k (load (lower y) a.old)) }
{
    let inv = 1.0 / get(y, a, k, k);
    by_pairs::all(Rank1 { k, inv }, y, a, k + 1);
    scale_all(y, a, k, inv);
}
