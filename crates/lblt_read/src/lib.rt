// What is read from an LBLT factor: `determinant`, `d` and `l_permuted`; and what every reader refuses.
#![tactic(auto)]

mod diagonal;
mod permuted;
mod square;

ghost use Rattle.std.specs.Prelude.{true, cond, ◌≡◌, ◌≤◌};
ghost use Rattle.answer.specs.Answer.{Done, is_done};
ghost use Rattle.answer.specs.Refusals.{tested};
ghost use Rattle.matrix.specs.Grid.{load};
ghost use Rattle.matrix.specs.Layouts.{full, lower};
ghost use Rattle.lblt_read.specs.Calls.{word_tests, reader_tests, side_tests, LbltDetermined, LbltFilled};
ghost use Rattle.lblt_read.specs.Diagonal.{d_of};
ghost use Rattle.lblt_read.specs.Permuted.{l_permuted_of};

use answer::{Answer, Refusal};
use matrix::Layout;

// ---- what every reader refuses, in the order of the table

// The record and its run number.
pub fn check_words(words: &[u32], n: usize, run: u32) -> Answer
    requires { n ≤ 1024 }
    ensures { result ≡ tested (word_tests n run words.now) Done }
{
    if words.len() != pivots::words(n) {
        return Err(Refusal::SliceLength);
    }
    pivots::check(words, n)?;
    if pivots::run(words, n) != run {
        return Err(Refusal::OtherRun);
    }
    Ok(())
}

// The same after other tests: `sizes` is their answer.
pub fn check_record(sizes: Answer, words: &[u32], n: usize, run: u32) -> Answer
    requires { is_done sizes ≡ true → n ≤ 1024 }
    ensures { result ≡ cond (is_done sizes) (tested (word_tests n run words.now) Done) sizes }
{
    sizes?;
    check_words(words, n, run)
}

// The factor, then the record.
fn check_factor(y: Layout, a: &[f64], words: &[u32], run: u32) -> Answer
    ensures { result ≡ tested (reader_tests y run a.now words.now) Done }
{
    y.check(0, a.len())?;
    check_words(words, y.order, run)
}

// The sizes of a factor and of a slice b of columns.
pub fn check_sides(y: Layout, columns: usize, a: &[f64], b: &[f64]) -> Answer
    ensures { result ≡ tested (side_tests y columns a.now b.now) Done }
{
    if 1024 < columns {
        return Err(Refusal::OutOfRange);
    }
    y.check(0, a.len())?;
    if b.len() != y.order * columns {
        return Err(Refusal::SliceLength);
    }
    Ok(())
}

// ---- the readers

pub fn determinant_on(y: Layout, a: &[f64], words: &[u32], run: u32) -> Result<f64, Refusal>
    ensures { LbltDetermined y run a.now words.now result }
{
    check_factor(y, a, words, run)?;
    Ok(diagonal::product(y, a, words))
}

pub fn determinant(a: &[f64], words: &[u32], n: usize, run: u32) -> Result<f64, Refusal>
    ensures { LbltDetermined (full n) run a.now words.now result }
{
    determinant_on(Layout::full(n), a, words, run)
}

// Fills d with the block diagonal matrix.
pub fn d(a: &[f64], words: &[u32], d: &mut [f64], n: usize, run: u32) -> Answer
    ensures { LbltFilled (full n) run a.now words.now (d_of n (load (lower (full n)) a.now) words.now) d.old result d.new }
{
    let y = Layout::full(n);
    check_sides(y, n, a, d)?;
    check_words(words, n, run)?;
    diagonal::fill(y, a, words, d);
    Ok(())
}

// Fills l with Pᵀ L.
pub fn l_permuted(a: &[f64], words: &[u32], l: &mut [f64], n: usize, run: u32) -> Answer
    ensures { LbltFilled (full n) run a.now words.now (l_permuted_of n (load (lower (full n)) a.now) words.now) l.old result l.new }
{
    let y = Layout::full(n);
    check_sides(y, n, a, l)?;
    check_words(words, n, run)?;
    permuted::fill(y, a, words, l);
    Ok(())
}
