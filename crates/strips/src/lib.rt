// Loops over rows of one column, on plain places: row i of a column that starts at s stands at i + s.
#![tactic(auto)]

ghost use Rattle.std.specs.Prelude.{◌+◌, ◌≤◌, length, All};
ghost use Rattle.strips.specs.inner.Strip.{Strip, Elsewhere, axpy_of, ratio_of, zero_at, row_at};

// A column that starts at `start`, and what it is multiplied by.
#[derive(Clone, Copy)]
pub struct Source {
    pub start: usize,
    pub scale: f64,
}

// Rows lo to hi of the column at `to`: plus multiples of other columns, one after the other.
pub fn axpy<const W: usize>(a: &mut [f64], to: usize, lo: usize, hi: usize, sources: [Source; W])
    requires lo_le_hi { lo ≤ hi }
    requires to_in_bounds { hi + to ≤ length a.old }
    requires elsewhere { All (Elsewhere lo hi to a.old) sources }
    ensures { Strip to lo hi (axpy_of a.old to sources.entry) a.old a.new }
{
    for i in lo..hi {
        let mut x = a[i + to];
        for s in sources {
            x = x + s.scale * a[i + s.start];
        }
        a[i + to] = x;
    }
}

// Rows lo to hi of the column at `at`: divided by d.
pub fn unscale(a: &mut [f64], at: usize, lo: usize, hi: usize, d: f64)
    requires lo_le_hi { lo ≤ hi }
    requires at_in_bounds { hi + at ≤ length a.old }
    ensures { Strip at lo hi (ratio_of a.old at d) a.old a.new }
{
    for x in &mut a[lo + at..hi + at] {
        *x = *x / d;
    }
}

// Rows lo to hi of the column at `at`: +0.
pub fn clear(a: &mut [f64], at: usize, lo: usize, hi: usize)
    requires lo_le_hi { lo ≤ hi }
    requires at_in_bounds { hi + at ≤ length a.old }
    ensures { Strip at lo hi zero_at a.old a.new }
{
    for i in lo..hi {
        a[i + at] = 0.0;
    }
}

// Rows lo to hi of the column at `to`: those of the column of b at `from`.
pub fn copy(b: &[f64], a: &mut [f64], from: usize, to: usize, lo: usize, hi: usize)
    requires lo_le_hi { lo ≤ hi }
    requires from_in_bounds { hi + from ≤ length b.now }
    requires to_in_bounds { hi + to ≤ length a.old }
    ensures { Strip to lo hi (row_at b.now from) a.old a.new }
{
    for i in lo..hi {
        a[i + to] = b[i + from];
    }
}
