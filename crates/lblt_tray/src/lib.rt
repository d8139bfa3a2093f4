// `tray`: many small systems of one order, each factored and solved.
#![tactic(auto)]

mod general;
mod three;

ghost use Rattle.std.specs.Prelude.{◌≡◌, ◌<◌, length};
ghost use Rattle.answer.specs.Answer.{Done};
ghost use Rattle.answer.specs.Refusals.{tested};
ghost use Rattle.lblt_tray.specs.Tray.{tray_tests, ItemSolved, EachSolved, TraySolved};
ghost use Rattle.lblt_tray.specs.inner.Engine.{Item, Trayed, OneSolved};

use answer::{Answer, Refusal};

// The count and the order, the matrices, then the other slices.
fn check(
    a: &[f64],
    words: &[u32],
    b: &[f64],
    runs: &[u32],
    answers: &[u64],
    n: usize,
    count: usize,
) -> Answer
    ensures { result ≡ tested (tray_tests n count a.now words.now b.now runs.now answers.now) Done }
{
    if 1024 < count {
        return Err(Refusal::OutOfRange);
    }
    if 64 < n {
        return Err(Refusal::OutOfRange);
    }
    if a.len() != n * n * count {
        return Err(Refusal::MatrixLength);
    }
    if words.len() != pivots::words(n) * count {
        return Err(Refusal::SliceLength);
    }
    if b.len() != n * count {
        return Err(Refusal::SliceLength);
    }
    if runs.len() != count {
        return Err(Refusal::SliceLength);
    }
    if answers.len() != count {
        return Err(Refusal::SliceLength);
    }
    Ok(())
}

// One item: the number of its solve's answer comes back, as the lent slice is to hold it.
fn item(a: &mut [f64], words: &mut [u32], b: &mut [f64], n: usize, run: u32) -> u64
    requires { Item n a.old words.old b.old }
    ensures { ItemSolved n run a.old words.old b.old result a.new words.new b.new }
{
    if n == 3 {
        return three::item(a, words, b, run);
    }
    general::item(a, words, b, n, run)
}

// Item t, where it lies in the tray.
fn item_at(
    a: &mut [f64],
    words: &mut [u32],
    b: &mut [f64],
    runs: &[u32],
    answers: &mut [u64],
    n: usize,
    t: usize,
)
    requires trayed { Trayed n (length runs.now) a.old words.old b.old runs.now answers.old }
    requires t_in_bounds { t < length runs.now }
    ensures { OneSolved n t a.old words.old b.old runs.now answers.old a.new words.new b.new answers.new }
{
    let square = n * n;
    let pairs = pivots::words(n);
    let matrix = t * square;
    let record = t * pairs;
    let side = t * n;
    answers[t] = item(
        &mut a[matrix..matrix + square],
        &mut words[record..record + pairs],
        &mut b[side..side + n],
        n,
        runs[t],
    );
}

fn each(
    a: &mut [f64],
    words: &mut [u32],
    b: &mut [f64],
    runs: &[u32],
    answers: &mut [u64],
    n: usize,
)
    requires { Trayed n (length runs.now) a.old words.old b.old runs.now answers.old }
    ensures { EachSolved n (length runs.now) a.old words.old b.old runs.now answers.old a.new words.new b.new answers.new }
{
    for t in 0..runs.len() {
        item_at(a, words, b, runs, answers, n, t);
    }
}

// Factors and solves `count` systems of order n, laid end to end, each with its own record and run number, and writes the number of each one's answer. A count
// above 1,024 or an order above 64, then wrong lengths, are refused for the whole tray, and nothing is written.
pub fn tray(
    a: &mut [f64],
    words: &mut [u32],
    b: &mut [f64],
    runs: &[u32],
    answers: &mut [u64],
    n: usize,
    count: usize,
) -> Answer
    ensures { TraySolved n count a.old words.old b.old runs.now answers.old result a.new words.new b.new answers.new }
{
    check(a, words, b, runs, answers, n, count)?;
    each(a, words, b, runs, answers, n);
    Ok(())
}
