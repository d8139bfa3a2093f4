// Which pivot step k takes.
#![tactic(auto)]

ghost use Rattle.std.specs.Prelude.{not, ◌≡◌, ◌+◌, ◌≤◌, ◌<◌, T};
ghost use Rattle.matrix.specs.Grid.{load};
ghost use Rattle.matrix.specs.Layouts.{lower, Laid};
ghost use Rattle.std.specs.Float.Ieee.{is_nan};
ghost use Rattle.leaf.specs.Abs.{abs_of};
ghost use Rattle.leaf.specs.Maximum.{maximum_of};
ghost use Rattle.lblt_choice.specs.Choice.{greater, column_max, along_row, row_max, contest, choose};

use leaf::{abs, maximum};
use matrix::{Layout, get};

const ALPHA: f64 = 0.6403882032022076;

// The largest entry met in a column, and its row.
#[derive(Clone, Copy)]
pub struct Largest {
    pub imax: usize,
    pub colmax: f64,
}

#[derive(Clone, Copy)]
pub enum Choice {
    // The largest entry of the column is zero: no pivot.
    ZeroColumn,
    // A pivot of size 1.
    One(usize),
    // A pivot of size 2.
    Two(usize),
}

impl Largest {
    // Row i replaces it only if its entry of column k is greater.
    fn or_row(self, y: Layout, a: &[f64], k: usize, i: usize) -> Largest
        requires laid { Laid y a.now }
        requires k_le_i { k ≤ i }
        requires i_lt_order { i < y.order }
        ensures { result ≡ greater (load (lower y) a.now) k i self }
    {
        let magnitude = abs(get(y, a, i, k));
        if magnitude > self.colmax {
            return Largest {
                imax: i,
                colmax: magnitude,
            };
        }
        self
    }
}

fn column_max(y: Layout, a: &[f64], k: usize) -> Largest
    requires laid { Laid y a.now }
    requires k_lt_order { k < y.order }
    ensures { result ≡ column_max y.order (load (lower y) a.now) k }
{
    let n = y.order;
    // No rows are left: the rule has 0 here.
    if n <= k + 1 {
        return Largest {
            imax: 0,
            colmax: 0.0,
        };
    }
    let mut top = Largest {
        imax: k + 1,
        colmax: abs(get(y, a, k + 1, k)),
    };
    for i in (k + 2)..n {
        top = top.or_row(y, a, k, i);
    }
    top
}

// The larger of a number that is no NaN and any other.
fn larger(most: f64, x: f64) -> f64
    requires { T (not (is_nan most)) }
    ensures value { result ≡ maximum_of most x }
    ensures no_nan { T (not (is_nan result)) }
{
    if most < x {
        return x;
    }
    most
}

// The larger of what is met and entry (i, j).
fn or_entry(y: Layout, a: &[f64], i: usize, j: usize, most: f64) -> f64
    requires laid { Laid y a.now }
    requires j_le_i { j ≤ i }
    requires i_lt_order { i < y.order }
    requires begun_no_nan { T (not (is_nan most)) }
    ensures value { result ≡ along_row (load (lower y) a.now) i j most }
    ensures no_nan { T (not (is_nan result)) }
{
    larger(most, abs(get(y, a, i, j)))
}

// Along row i up to the diagonal, then down column i.
fn row_max(y: Layout, a: &[f64], k: usize, i: usize) -> f64
    requires laid { Laid y a.now }
    requires k_le_i { k ≤ i }
    requires i_lt_order { i < y.order }
    ensures { result ≡ row_max y.order (load (lower y) a.now) k i }
{
    let n = y.order;
    let mut rowmax = 0.0;
    for j in k..i {
        rowmax = or_entry(y, a, i, j, rowmax);
    }
    for j in (i + 1)..n {
        rowmax = or_entry(y, a, j, i, rowmax);
    }
    rowmax
}

// The diagonal is small against its column: it stays if the ratio of the maxima allows it, else row imax is taken.
fn contest(y: Layout, a: &[f64], k: usize, diag: f64, top: Largest) -> Choice
    requires laid { Laid y a.now }
    requires k_le_imax { k ≤ top.imax }
    requires imax_lt_order { top.imax < y.order }
    requires diag_value { diag ≡ abs_of (load (lower y) a.now k k) }
    ensures { result ≡ contest (load (lower y) a.now) k top (row_max y.order (load (lower y) a.now) k top.imax) }
{
    let imax = top.imax;
    let colmax = top.colmax;
    let rowmax = row_max(y, a, k, imax);
    if diag >= ALPHA * colmax * (colmax / rowmax) {
        return Choice::One(k);
    }
    if abs(get(y, a, imax, imax)) < ALPHA * rowmax {
        return Choice::Two(imax);
    }
    Choice::One(imax)
}

pub fn choose(y: Layout, a: &[f64], k: usize) -> Choice
    requires laid { Laid y a.now }
    requires k_lt_order { k < y.order }
    ensures { result ≡ choose y.order (load (lower y) a.now) k }
{
    let diag = abs(get(y, a, k, k));
    let top = column_max(y, a, k);
    if maximum(diag, top.colmax) == 0.0 {
        return Choice::ZeroColumn;
    }
    if diag < ALPHA * top.colmax {
        return contest(y, a, k, diag, top);
    }
    Choice::One(k)
}
