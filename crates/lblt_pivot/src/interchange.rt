// The two-sided interchange that brings a pivot to its place.
ghost use Rattle.std.specs.Prelude.{◌+◌, ◌≤◌, ◌<◌};
ghost use Rattle.matrix.specs.Grid.{Holds, load};
ghost use Rattle.matrix.specs.Layouts.{lower, Laid};
ghost use Rattle.matrix.specs.Loop.{for};
ghost use Rattle.lblt_pivot.specs.Interchange.{swap_below, swap_between, interchange, brought1, brought2};

use matrix::{Layout, swap};

fn swap_below(y: Layout, a: &mut [f64], t: usize, p: usize)
    requires laid { Laid y a.old }
    requires t_le_p { t ≤ p }
    requires p_lt_order { p < y.order }
    ensures { Holds (lower y) a.old a.new (for (p + 1) y.order (swap_below t p) (load (lower y) a.old)) }
{
    let n = y.order;
    for i in (p + 1)..n {
        swap(y, a, i, t, i, p);
    }
}

fn swap_between(y: Layout, a: &mut [f64], t: usize, p: usize)
    requires laid { Laid y a.old }
    requires t_lt_p { t < p }
    requires p_lt_order { p < y.order }
    ensures { Holds (lower y) a.old a.new (for (t + 1) p (swap_between t p) (load (lower y) a.old)) }
{
    for j in (t + 1)..p {
        swap(y, a, j, t, p, j);
    }
}

fn interchange(y: Layout, a: &mut [f64], t: usize, p: usize)
    requires laid { Laid y a.old }
    requires t_lt_p { t < p }
    requires p_lt_order { p < y.order }
    ensures { Holds (lower y) a.old a.new (interchange y.order t p (load (lower y) a.old)) }
{
    swap_below(y, a, t, p);
    swap_between(y, a, t, p);
    swap(y, a, t, t, p, p);
}

pub fn bring1(y: Layout, a: &mut [f64], k: usize, p: usize)
    requires laid { Laid y a.old }
    requires k_le_p { k ≤ p }
    requires p_lt_order { p < y.order }
    ensures { Holds (lower y) a.old a.new (brought1 y.order k p (load (lower y) a.old)) }
{
    if p == k {
        return;
    }
    interchange(y, a, k, p);
}

pub fn bring2(y: Layout, a: &mut [f64], k: usize, p: usize)
    requires laid { Laid y a.old }
    requires k_lt_p { k < p }
    requires p_lt_order { p < y.order }
    ensures { Holds (lower y) a.old a.new (brought2 y.order k p (load (lower y) a.old)) }
{
    if p == k + 1 {
        return;
    }
    interchange(y, a, k + 1, p);
    swap(y, a, k + 1, k, p, k);
}
