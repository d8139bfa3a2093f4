// LBLT, Cholesky and the search for twins on packed lower triangles: entry (i, j) of order n at i + j·(2n − j − 1)/2, n·(n + 1)/2 numbers.
#![tactic(auto)]

ghost use Rattle.matrix.specs.Layouts.{packed};
ghost use Rattle.lblt.specs.Factor.{Factored};
ghost use Rattle.lblt_read.specs.Calls.{LbltDetermined};
ghost use Rattle.lblt_solve.specs.Solve.{LbltSolved};
ghost use Rattle.cholesky.specs.Promise.{Extended};
ghost use Rattle.cholesky.specs.Solve.{CholeskySolved};
ghost use Rattle.twins.specs.First.{FirstTwinOn};
ghost use Rattle.packed.specs.Growing.{Grown};

use answer::{Answer, Refusal};
use matrix::{Layout, entries};
use twins::Found;

pub fn lblt_factor(a: &mut [f64], words: &mut [u32], n: usize, run: u32) -> Answer
    ensures { Factored (packed n) run a.old words.old result a.new words.new }
{
    lblt::factor_on(Layout::packed(n), a, words, run)
}

// n numbers of b a column.
pub fn lblt_solve(
    a: &[f64],
    words: &[u32],
    b: &mut [f64],
    n: usize,
    columns: usize,
    run: u32,
) -> Answer
    ensures { LbltSolved (packed n) columns run a.now words.now b.old result b.new }
{
    lblt_solve::solve_on(Layout::packed(n), a, words, b, columns, run)
}

pub fn lblt_determinant(a: &[f64], words: &[u32], n: usize, run: u32) -> Result<f64, Refusal>
    ensures { LbltDetermined (packed n) run a.now words.now result }
{
    lblt_read::determinant_on(Layout::packed(n), a, words, run)
}

pub fn cholesky_factor(a: &mut [f64], n: usize) -> Answer
    ensures { Extended (packed n) 0 a.old a.new result }
{
    cholesky::extend_on(Layout::packed(n), a, 0)
}

// A further batch: the packed factor of the first `earlier` rows, and the others as they came, laid end to end, i + 1 numbers for row i.
// The factor of all n rows goes into `fresh`.
pub fn cholesky_extend(
    old: &[f64],
    rows: &[f64],
    fresh: &mut [f64],
    earlier: usize,
    n: usize,
) -> Answer
    ensures { Grown earlier n old.now rows.now fresh.old result fresh.new }
{
    if 1024 < n {
        return Err(Refusal::OutOfRange);
    }
    if 1024 < earlier {
        return Err(Refusal::OutOfRange);
    }
    if n < earlier {
        return Err(Refusal::OrderAboveRoom);
    }
    if old.len() != entries(earlier) {
        return Err(Refusal::MatrixLength);
    }
    if rows.len() != entries(n) - entries(earlier) {
        return Err(Refusal::SliceLength);
    }
    if fresh.len() != entries(n) {
        return Err(Refusal::SliceLength);
    }
    packing::join(old, rows, fresh, earlier, n);
    cholesky::extend_on(Layout::packed(n), fresh, earlier)
}

// n numbers of b a column.
pub fn cholesky_solve(a: &[f64], b: &mut [f64], n: usize, columns: usize) -> Answer
    ensures { CholeskySolved (packed n) columns a.now b.old b.new result }
{
    cholesky::solve_on(Layout::packed(n), a, b, columns)
}

// The first pair of twin rows of all n.
pub fn first_twin(a: &[f64], n: usize) -> Found
    ensures { FirstTwinOn (packed n) 0 a.now result }
{
    twins::first_twin_on(Layout::packed(n), a, 0)
}
