// What a pivot does to the lower triangle of a matrix: the two-sided interchange that brings it to its place, and the update of the rows below.
#![tactic(auto)]

ghost use Rattle.std.specs.Prelude.{◌≤◌, ◌<◌};
ghost use Rattle.matrix.specs.Grid.{Holds, load};
ghost use Rattle.matrix.specs.Layouts.{lower, Laid};
ghost use Rattle.lblt_pivot.specs.Pivot.{pivot1, pivot2};

use matrix::Layout;

mod by_pairs;
mod interchange;
mod rank1;
mod rank2;

pub use rank2::{Block, Work};

// A pivot of size 1 from row p at step k.
pub fn pivot1(y: Layout, a: &mut [f64], k: usize, p: usize)
    requires laid { Laid y a.old }
    requires k_le_p { k ≤ p }
    requires p_lt_order { p < y.order }
    ensures { Holds (lower y) a.old a.new (pivot1 y.order k p (load (lower y) a.old)) }
{
    interchange::bring1(y, a, k, p);
    rank1::update1(y, a, k);
}

// A pivot of size 2 from row p at step k.
pub fn pivot2(y: Layout, a: &mut [f64], k: usize, p: usize)
    requires laid { Laid y a.old }
    requires k_lt_p { k < p }
    requires p_lt_order { p < y.order }
    ensures { Holds (lower y) a.old a.new (pivot2 y.order k p (load (lower y) a.old)) }
{
    interchange::bring2(y, a, k, p);
    rank2::update2(y, a, k);
}
