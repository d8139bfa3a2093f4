// What is read from a factor.
ghost use Rattle.std.specs.Prelude.{false, ◌≡◌, ◌*◌, ◌<◌, length};
ghost use Rattle.matrix.specs.Matrix.{all_zero};
ghost use Rattle.matrix.specs.Grid.{Holds, load, mask};
ghost use Rattle.matrix.specs.Layouts.{lower, strict, square, Laid, Fills};
ghost use Rattle.strips.specs.inner.Strip.{Strip};
ghost use Rattle.cholesky.specs.Readers.{product_of, triangle};
ghost use Rattle.cholesky.specs.inner.Engine.{down};

use matrix::Layout;

// The product of the diagonal.
pub fn diagonal(y: Layout, a: &[f64]) -> f64
    requires { Laid y a.now }
    ensures { result ≡ product_of y.order (load (lower y) a.now) }
{
    let mut product = 1.0;
    for i in 0..y.order {
        product *= matrix::get(y, a, i, i);
    }
    product
}

// The strict upper part becomes +0.
pub fn clear_above(y: Layout, a: &mut [f64])
    requires laid { Laid y a.old }
    requires packed_value { y.packed ≡ false }
    ensures { Holds (strict y) a.old a.new (mask (strict y) all_zero) }
{
    for j in 0..y.order {
        strips::clear(a, y.start(j), 0, j);
    }
}

// Column j of l: +0 above the diagonal, the rest from a.
fn copy_column(y: Layout, a: &[f64], l: &mut [f64], j: usize)
    requires laid { Laid y a.now }
    requires l_len { length l.old ≡ y.order * y.order }
    requires j_lt_order { j < y.order }
    ensures { Strip (j * y.order) 0 y.order (down (triangle (load (lower y) a.now)) j) l.old l.new }
{
    let to = j * y.order;
    strips::clear(l, to, 0, j);
    strips::copy(a, l, y.start(j), to, j, y.order);
}

pub fn copy(y: Layout, a: &[f64], l: &mut [f64])
    requires laid { Laid y a.now }
    requires l_len { length l.old ≡ y.order * y.order }
    ensures { Fills y.order l.new (mask (square y.order) (triangle (load (lower y) a.now))) }
{
    for j in 0..y.order {
        copy_column(y, a, l, j);
    }
}
