// A lent n·n matrix, written whole.
ghost use Rattle.std.specs.Prelude.{◌<◌};
ghost use Rattle.matrix.specs.Matrix.{all_zero, entry};
ghost use Rattle.matrix.specs.Grid.{load, mask, Holds};
ghost use Rattle.matrix.specs.Layouts.{square, Fills};
ghost use Rattle.lblt_read.specs.Permuted.{identity, swap_columns};
ghost use Rattle.lblt_read.specs.inner.Engine.{Squared};

pub fn put(l: &mut [f64], n: usize, i: usize, j: usize, x: f64)
    requires squared { Squared n l.old }
    requires i_lt_n { i < n }
    requires j_lt_n { j < n }
    ensures { Holds (square n) l.old l.new (entry (load (square n) l.old) i j x) }
{
    l[i + j * n] = x;
}

pub fn clear(l: &mut [f64], n: usize)
    requires { Squared n l.old }
    ensures { Fills n l.new (mask (square n) all_zero) }
{
    strips::clear(l, 0, 0, n * n);
}

pub fn put_identity(l: &mut [f64], n: usize)
    requires { Squared n l.old }
    ensures { Fills n l.new (mask (square n) identity) }
{
    clear(l, n);
    for k in 0..n {
        put(l, n, k, k, 1.0);
    }
}

pub fn swap_columns(l: &mut [f64], n: usize, p: usize, q: usize)
    requires squared { Squared n l.old }
    requires p_lt_n { p < n }
    requires q_lt_n { q < n }
    ensures { Holds (square n) l.old l.new (swap_columns n p q (load (square n) l.old)) }
{
    let first = p * n;
    let second = q * n;
    for row in 0..n {
        l.swap(row + first, row + second);
    }
}
