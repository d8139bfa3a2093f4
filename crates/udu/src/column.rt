// One column of UDU, on plain offsets: column j of a matrix of order n starts at j·n.
ghost use Rattle.std.specs.Prelude.{◌≡◌, ℕ, ◌+◌, ◌-◌, ◌*◌, ◌≤◌, ◌<◌, length, slice_index_or};
ghost use Rattle.matrix.specs.Grid.{load};
ghost use Rattle.matrix.specs.Layouts.{upper};
ghost use Rattle.strips.specs.inner.Strip.{Strip, Gathered};
ghost use Rattle.udu.specs.Columns.{square_sum, cross_sum, further_entry};
ghost use Rattle.udu.specs.Promise.{UduSized};
ghost use Rattle.udu.specs.inner.Contracts.{Zeros, factors_in, multiples_of, quotients_of, source_of, ColumnStep};

use std::array;
use strips::Source;

// The last column: its diagonal and, unless that is zero, p times the diagonal's inverse. Answers whether it is zero: the promise
// says so of both (`ColumnStep`). One function for this column and the further ones takes a sixth longer at order 3.
pub fn last(p: &[f64], u: &mut [f64], d: &mut [f64], n: usize) -> bool
    requires { UduSized n p.now u.old d.old }
    ensures { ColumnStep n (n - 1) p.now u.old d.old result u.new d.new }
{
    let j = n - 1;
    let at = j * n;
    let x = p[j + at];
    d[j] = x;
    if x == 0.0 {
        return true;
    }
    multiply(p, u, at, n, 1.0 / x);
    false
}

// A further column: its diagonal and, unless that is zero, its entries. Answers whether it is zero.
pub fn further(p: &[f64], u: &mut [f64], d: &mut [f64], j: usize, n: usize) -> bool
    requires udu_sized { UduSized n p.now u.old d.old }
    requires j_bound { j + 1 < n }
    requires zeros { Zeros n (j + 1) u.old }
    ensures { ColumnStep n j p.now u.old d.old result u.new d.new }
{
    let x = p[j + j * n] - squares(u, d, j, n);
    if x == 0.0 {
        d[j] = x;
        return true;
    }
    entries(p, u, d, j, n, x);
    d[j] = x;
    false
}

// The entries of column j down to the diagonal, which becomes 1. Small orders are faster row by row.
fn entries(p: &[f64], u: &mut [f64], d: &[f64], j: usize, n: usize, x: f64)
    requires udu_sized { UduSized n p.now u.old d.now }
    requires j_lt_n { j < n }
    requires zeros { Zeros n (j + 1) u.old }
    ensures { Strip (j * n) 0 (j + 1) (further_entry n (load (upper n) p.now) (factors_in n u.old d.now) x j) u.old u.new }
{
    if n < 16 {
        by_rows(p, u, d, j, n, x);
    } else {
        by_columns(p, u, d, j, n, x);
    }
}

// Each entry's sum by itself.
fn by_rows(p: &[f64], u: &mut [f64], d: &[f64], j: usize, n: usize, x: f64)
    requires udu_sized { UduSized n p.now u.old d.now }
    requires j_lt_n { j < n }
    ensures { Strip (j * n) 0 (j + 1) (further_entry n (load (upper n) p.now) (factors_in n u.old d.now) x j) u.old u.new }
{
    let at = j * n;
    for i in 0..j {
        u[i + at] = (p[i + at] - row(u, d, i, j, n)) / x;
    }
    u[j + at] = 1.0;
}

// The sums of all rows together, column after column.
fn by_columns(p: &[f64], u: &mut [f64], d: &[f64], j: usize, n: usize, x: f64)
    requires udu_sized { UduSized n p.now u.old d.now }
    requires j_lt_n { j < n }
    requires zeros { Zeros n (j + 1) u.old }
    ensures { Strip (j * n) 0 (j + 1) (further_entry n (load (upper n) p.now) (factors_in n u.old d.now) x j) u.old u.new }
{
    crosses(u, d, j, n);
    let at = j * n;
    divide(p, u, at, j, x);
    u[j + at] = 1.0;
}

// d(k)·(u(j,k)·u(j,k)) for k after j, added up.
fn squares(u: &[f64], d: &[f64], j: usize, n: usize) -> f64
    requires j_lt_n { j < n }
    requires n_bound { n ≤ 1024 }
    requires u_len { length u.now ≡ n * n }
    requires d_len { length d.now ≡ n }
    ensures { result ≡ square_sum n (factors_in n u.now d.now) j }
{
    let mut sum = 0.0;
    for k in j + 1..n {
        let v = u[j + k * n];
        sum += d[k] * (v * v);
    }
    sum
}

// (d(k)·u(j,k))·u(i,k) for k after j, added up.
fn row(u: &[f64], d: &[f64], i: usize, j: usize, n: usize) -> f64
    requires i_lt_j { i < j }
    requires j_lt_n { j < n }
    requires n_bound { n ≤ 1024 }
    requires u_len { length u.now ≡ n * n }
    requires d_len { length d.now ≡ n }
    ensures { result ≡ cross_sum n (factors_in n u.now d.now) j i }
{
    let mut sum = 0.0;
    for k in j + 1..n {
        let from = k * n;
        sum += (d[k] * u[j + from]) * u[i + from];
    }
    sum
}

// The same for each row i before j at once: the sums grow in column j, which starts as zeros.
fn crosses(u: &mut [f64], d: &[f64], j: usize, n: usize)
    requires j_lt_n { j < n }
    requires n_bound { n ≤ 1024 }
    requires u_len { length u.old ≡ n * n }
    requires d_len { length d.now ≡ n }
    requires zeros { Zeros n (j + 1) u.old }
    ensures { Strip (j * n) 0 j (cross_sum n (factors_in n u.old d.now) j) u.old u.new }
{
    let first = j + 1;
    let others = n - (n - first) % 4;
    for k in (first..others).step_by(4) {
        add::<4>(u, d, j, k, n);
    }
    for k in others..n {
        add::<1>(u, d, j, k, n);
    }
}

// Adds the W columns from k on.
fn add<const W: usize>(u: &mut [f64], d: &[f64], j: usize, k: usize, n: usize)
    requires j_lt_k { j < k }
    requires k_bound { k + W ≤ n }
    requires n_bound { n ≤ 1024 }
    requires u_len { length u.old ≡ n * n }
    requires d_len { length d.now ≡ n }
    ensures { Gathered (j * n) 0 j (source_of n u.old d.now j) k u.old (k + W) u.new }
{
    let columns: [Source; W] = sources(u, d, j, k, n);
    strips::axpy(u, j * n, 0, j, columns);
}

// The W columns from k on, and what they are multiplied by.
fn sources<const W: usize>(u: &[f64], d: &[f64], j: usize, k: usize, n: usize) -> [Source; W]
    requires j_lt_k { j < k }
    requires k_bound { k + W ≤ n }
    requires n_bound { n ≤ 1024 }
    requires u_len { length u.now ≡ n * n }
    requires d_len { length d.now ≡ n }
    ensures { (c : ℕ) (s : _) → c < W → slice_index_or result c s ≡ source_of n u.now d.now j (k + c) }
{
    array::from_fn(|c| source(u, d, j, k + c, n))
}

// Column k, and what it is multiplied by in the sums of column j: d(k)·u(j,k).
fn source(u: &[f64], d: &[f64], j: usize, k: usize, n: usize) -> Source
    requires j_lt_k { j < k }
    requires k_lt_n { k < n }
    requires n_bound { n ≤ 1024 }
    requires u_len { length u.now ≡ n * n }
    requires d_len { length d.now ≡ n }
    ensures { result ≡ source_of n u.now d.now j k }
{
    let start = k * n;
    let scale = d[k] * u[j + start];
    Source { start, scale }
}

// Rows of the column at `at`: (p − u) / x.
fn divide(p: &[f64], u: &mut [f64], at: usize, rows: usize, x: f64)
    requires at_in_bounds { rows + at ≤ length p.now }
    requires at_in_bounds_2 { rows + at ≤ length u.old }
    ensures { Strip at 0 rows (quotients_of p.now u.old at x) u.old u.new }
{
    for i in 0..rows {
        u[i + at] = (p[i + at] - u[i + at]) / x;
    }
}

// Rows of the column at `at`: c times those of p.
fn multiply(p: &[f64], u: &mut [f64], at: usize, rows: usize, c: f64)
    requires at_in_bounds { rows + at ≤ length p.now }
    requires at_in_bounds_2 { rows + at ≤ length u.old }
    ensures { Strip at 0 rows (multiples_of p.now at c) u.old u.new }
{
    for i in 0..rows {
        u[i + at] = c * p[i + at];
    }
}
