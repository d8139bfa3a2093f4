// Matrices in lent slices, column by column.
#![tactic(auto)]

ghost use Rattle.std.specs.Prelude.{◌≡◌, ◌≤◌, ◌<◌};
ghost use Rattle.matrix.specs.Matrix.{entry, exchange};
ghost use Rattle.matrix.specs.Grid.{Holds, load};
ghost use Rattle.matrix.specs.Layouts.{full, in_room, packed, Roomy, entries_of, start_of, size_of, lower, Laid};
ghost use Rattle.matrix.specs.inner.Starts.{left_out};
ghost use Rattle.matrix.specs.Sizes.{size_tests};
ghost use Rattle.answer.specs.Refusals.{tested};
ghost use Rattle.answer.specs.Answer.{Done};

use answer::{Answer, Refusal};

// Where the lower triangle of a matrix stands: `order` rows and columns in a room of room·room numbers, or, packed, of room·(room + 1)/2. A flag and no enum: the
// definitions of specs/ speak of both kinds by it, and `offset` works with it without a branch.
#[derive(Clone, Copy)]
pub struct Layout {
    pub order: usize,
    pub room: usize,
    pub packed: bool,
}

// How many entries the lower triangle of n rows has.
pub fn entries(n: usize) -> usize
    requires { n ≤ 1024 }
    ensures { result ≡ entries_of n }
{
    n * (n + 1) / 2
}

impl Layout {
    // A square matrix of order n.
    pub fn full(n: usize) -> Layout
        ensures { result ≡ full n }
    {
        Layout {
            order: n,
            room: n,
            packed: false,
        }
    }

    // The first n rows and columns of a room.
    pub fn in_room(n: usize, room: usize) -> Layout
        ensures { result ≡ in_room n room }
    {
        Layout {
            order: n,
            room,
            packed: false,
        }
    }

    // The lower triangle of order n, column by column, and nothing else.
    pub fn packed(n: usize) -> Layout
        ensures { result ≡ packed n }
    {
        Layout {
            order: n,
            room: n,
            packed: true,
        }
    }

    // The same layout, with its room known to the compiler, where that is the order.
    pub fn tight(self) -> Layout
        requires { self.room ≡ self.order }
        ensures { result ≡ self }
    {
        Layout {
            order: self.order,
            room: self.order,
            packed: self.packed,
        }
    }

    // How many numbers a slice of the layout has.
    pub fn length(self) -> usize
        requires { Roomy self }
        ensures { result ≡ size_of self }
    {
        if self.packed {
            return entries(self.room);
        }
        self.room * self.room
    }

    // Codes 1 to 3 for a slice of `len` numbers, the first `earlier` rows of which came earlier.
    pub fn check(self, earlier: usize, len: usize) -> Answer
        ensures { result ≡ tested (size_tests self earlier len) Done }
    {
        if 1024 < self.room {
            return Err(Refusal::OutOfRange);
        }
        if 1024 < self.order {
            return Err(Refusal::OutOfRange);
        }
        if 1024 < earlier {
            return Err(Refusal::OutOfRange);
        }
        if self.room < self.order {
            return Err(Refusal::OrderAboveRoom);
        }
        if self.order < earlier {
            return Err(Refusal::OrderAboveRoom);
        }
        if len != self.length() {
            return Err(Refusal::MatrixLength);
        }
        Ok(())
    }

    // Where column j starts: entry (i, j) stands at i + start(j).
    pub fn start(self, j: usize) -> usize
        requires roomy { Roomy self }
        requires j_lt_order { j < self.order }
        ensures { result ≡ start_of self j }
    {
        if self.packed {
            return j * self.room - entries(j);
        }
        j * self.room
    }

    // What a packed layout leaves out of two columns before column j.
    fn left_out(self, j: usize) -> usize
        requires { j ≤ 1024 }
        ensures { result ≡ left_out self j }
    {
        if self.packed {
            return j + 1;
        }
        0
    }

    // The same start by one form for all layouts: entries are read and stored in loops, which it keeps free of branches.
    fn offset(self, j: usize) -> usize
        requires roomy { Roomy self }
        requires j_lt_order { j < self.order }
        ensures { result ≡ start_of self j }
    {
        j * (2 * self.room - self.left_out(j)) / 2
    }
}

pub fn get(y: Layout, a: &[f64], i: usize, j: usize) -> f64
    requires laid { Laid y a.now }
    requires j_le_i { j ≤ i }
    requires i_lt_order { i < y.order }
    ensures { result ≡ load (lower y) a.now i j }
{
    a[i + y.offset(j)]
}

pub fn put(y: Layout, a: &mut [f64], i: usize, j: usize, v: f64)
    requires laid { Laid y a.old }
    requires j_le_i { j ≤ i }
    requires i_lt_order { i < y.order }
    ensures { Holds (lower y) a.old a.new (entry (load (lower y) a.old) i j v) }
{
    a[i + y.offset(j)] = v;
}

// Exchanges the entries (i, j) and (r, c).
pub fn swap(y: Layout, a: &mut [f64], i: usize, j: usize, r: usize, c: usize)
    requires laid { Laid y a.old }
    requires j_le_i { j ≤ i }
    requires i_lt_order { i < y.order }
    requires c_le_r { c ≤ r }
    requires r_lt_order { r < y.order }
    ensures { Holds (lower y) a.old a.new (exchange (load (lower y) a.old) i j r c) }
{
    let x = get(y, a, i, j);
    put(y, a, i, j, get(y, a, r, c));
    put(y, a, r, c, x);
}
