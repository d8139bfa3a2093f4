// Updates that go over the columns by pairs of neighbours, and over a pair row by row.
ghost use Rattle.std.specs.Prelude.{◌≡◌, ℕ, ◌+◌, ◌≤◌, ◌<◌};
ghost use Rattle.matrix.specs.Matrix.{Matrix};
ghost use Rattle.matrix.specs.Grid.{Holds, load};
ghost use Rattle.matrix.specs.Layouts.{lower, Laid};
ghost use Rattle.matrix.specs.Loop.{for};
ghost use Rattle.lblt_pivot.specs.inner.Engine.{Begun};

use matrix::Layout;

// The update by a pivot.
pub trait Update: Copy {
    // The first column that it changes.
    ghost first: { Self → ℕ };

    // What it does to column j of a matrix of order n.
    ghost column: { Self → ℕ → ℕ → Matrix → Matrix };

    // Column j.
    fn one(self, y: Layout, a: &mut [f64], j: usize)
        requires laid { Laid y a.old }
        requires first_le_j { first self ≤ j }
        requires j_lt_order { j < y.order }
        ensures { Holds (lower y) a.old a.new (column self y.order j (load (lower y) a.old)) };

    // Columns j and j + 1.
    fn two(self, y: Layout, a: &mut [f64], j: usize)
        requires laid { Laid y a.old }
        requires first_le_j { first self ≤ j }
        requires j_bound { j + 1 < y.order }
        ensures { Holds (lower y) a.old a.new (column self y.order (j + 1) (column self y.order j (load (lower y) a.old))) };
}

// The columns from the first on: by pairs, the last one alone where their number is odd.
pub fn all<U: Update>(u: U, y: Layout, a: &mut [f64], first: usize)
    requires laid { Laid y a.old }
    requires first_value { U.first u ≡ first }
    requires first_le_order { first ≤ y.order }
    ensures { Holds (lower y) a.old a.new (for first y.order (U.column u y.order) (load (lower y) a.old)) }
{
    let n = y.order;
    let mut j = first;
    // A `while`: with a `for` over the pairs, LLVM ends the loop over their rows across a line of 32 bytes, and a factor takes up to a third longer.
    while j + 1 < n {
        u.two(y, a, j);
        j += 2;
    }
    if j < n {
        u.one(y, a, j);
    }
}

// What an update does to the rows of two neighbouring columns j and j + 1.
pub trait Pair: Copy {
    // The columns stand after the pivot's.
    ghost is_before: { Self → ℕ → Type 0 };

    ghost change: { Self → ℕ → ℕ → Matrix → Matrix };

    // Row i of both.
    fn at(self, y: Layout, a: &mut [f64], j: usize, i: usize)
        requires laid { Laid y a.old }
        requires is_before { is_before self j }
        requires j_bound { j + 1 ≤ i }
        requires i_lt_order { i < y.order }
        ensures { Holds (lower y) a.old a.new (change self j i (load (lower y) a.old)) };
}

// Row j + 1 of both by itself where its place in the slice is odd, so that those after it are read and written two at a time; the row to go on from.
fn first_row<P: Pair>(pair: P, y: Layout, a: &mut [f64], j: usize) -> usize
    requires laid { Laid y a.old }
    requires is_before { P.is_before pair j }
    requires j_bound { j + 1 < y.order }
    ensures { Begun y (j + 1) (P.change pair j) a.old result a.new }
{
    let row = j + 1;
    if (row + y.start(j)) % 2 == 1 {
        pair.at(y, a, j, row);
        return row + 1;
    }
    row
}

// The rows of both from j + 1 on.
pub fn rows<P: Pair>(pair: P, y: Layout, a: &mut [f64], j: usize)
    requires laid { Laid y a.old }
    requires is_before { P.is_before pair j }
    requires j_bound { j + 1 < y.order }
    ensures { Holds (lower y) a.old a.new (for (j + 1) y.order (P.change pair j) (load (lower y) a.old)) }
{
    let first = first_row(pair, y, a, j);
    for i in first..y.order {
        pair.at(y, a, j, i);
    }
}
