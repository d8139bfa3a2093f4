// Cholesky for the board: Cholesky of order n is Cholesky of order n − 1, then the last row, found from left to right.
#![tactic(auto)]

ghost use Rattle.std.specs.Prelude.{◌≡◌, ◌≤◌, ◌<◌};
ghost use Rattle.matrix.specs.Grid.{load};
ghost use Rattle.matrix.specs.Layouts.{lower, Laid};
ghost use Rattle.cholesky.specs.Column.{updated};
ghost use Rattle.cholesky.specs.Crate.{crate_rule};
ghost use Rattle.teaching.specs.Promise.{Taught};
ghost use Rattle.teaching.specs.inner.Rows.{on_diagonal, last_row, by_rows, Does};

use answer::{Answer, Refusal};
use matrix::{Layout, get, put};

// Entry (r, c), less what the columns before c take from it: x + (−l(c,k))·l(r,k), for k from 0 to c − 1.
fn updated(y: Layout, a: &[f64], r: usize, c: usize) -> f64
    requires laid { Laid y a.now }
    requires c_le_r { c ≤ r }
    requires r_lt_order { r < y.order }
    ensures { result ≡ updated (load (lower y) a.now) c c r }
{
    let mut x = get(y, a, r, c);
    for k in 0..c {
        x = x + -get(y, a, c, k) * get(y, a, r, k);
    }
    x
}

// The diagonal of row r: above zero it becomes its root, else it stays and the answer says why.
fn diagonal(y: Layout, a: &mut [f64], r: usize) -> Answer
    requires laid { Laid y a.old }
    requires r_lt_order { r < y.order }
    ensures { Does y (on_diagonal crate_rule r) a.old a.new result }
{
    let d = updated(y, a, r, r);
    if 0.0 < d {
        put(y, a, r, r, leaf::root(d));
        return Ok(());
    }
    put(y, a, r, r, d);
    cholesky::answer_to(d, r)
}

// Row r, from left to right, and then its diagonal.
fn last_row(y: Layout, a: &mut [f64], r: usize) -> Answer
    requires laid { Laid y a.old }
    requires r_lt_order { r < y.order }
    ensures { Does y (last_row crate_rule r) a.old a.new result }
{
    for c in 0..r {
        put(y, a, r, c, updated(y, a, r, c) / get(y, a, c, c));
    }
    diagonal(y, a, r)
}

// Cholesky of order n: Cholesky of order n − 1, and then the last row.
fn of_order(y: Layout, a: &mut [f64], n: usize) -> Answer
    requires laid { Laid y a.old }
    requires n_le_order { n ≤ y.order }
    ensures { Does y (by_rows crate_rule n) a.old a.new result }
{
    if n == 0 {
        return Ok(());
    }
    of_order(y, a, n - 1)?;
    last_row(y, a, n - 1)
}

// Cholesky of the first n rows, 64 at most, in a room of room·room numbers.
pub fn cholesky(a: &mut [f64], room: usize, n: usize) -> Answer
    ensures { Taught room n a.old a.new result }
{
    if 64 < n {
        return Err(Refusal::OutOfRange);
    }
    let y = Layout::in_room(n, room);
    y.check(0, a.len())?;
    of_order(y, a, n)
}
