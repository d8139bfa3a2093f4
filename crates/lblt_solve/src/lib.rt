// `solve_mut` by an LBLT factor.
#![tactic(auto)]

pub mod sides;

ghost use Rattle.std.specs.Prelude.{true, cond, ◌≡◌};
ghost use Rattle.answer.specs.Answer.{Done, is_done};
ghost use Rattle.answer.specs.Refusals.{tested};
ghost use Rattle.matrix.specs.Layouts.{full};
ghost use Rattle.pivots.specs.Rule.{Accepted};
ghost use Rattle.lblt_solve.specs.Solve.{mark_tests, solve_tests, LbltSolved};

use answer::{Answer, Refusal};
use matrix::Layout;

// The mark of a record that a reader accepts.
pub fn check_mark_word(words: &[u32], n: usize) -> Answer
    requires { Accepted n words.now }
    ensures { result ≡ tested (mark_tests n words.now) Done }
{
    let mark = pivots::mark(words, n);
    if mark == 0 {
        return Ok(());
    }
    Err(Refusal::ZeroMark((mark - 1) as u32))
}

// The same after a reader's tests: `read` is their answer.
pub fn check_mark(read: Answer, words: &[u32], n: usize) -> Answer
    requires { is_done read ≡ true → Accepted n words.now }
    ensures { result ≡ cond (is_done read) (tested (mark_tests n words.now) Done) read }
{
    read?;
    check_mark_word(words, n)
}

// What a reader of a factor refuses, then a zero mark.
fn check(y: Layout, columns: usize, a: &[f64], words: &[u32], b: &[f64], run: u32) -> Answer
    ensures { result ≡ tested (solve_tests y columns run a.now words.now b.now) Done }
{
    lblt_read::check_sides(y, columns, a, b)?;
    lblt_read::check_words(words, y.order, run)?;
    check_mark_word(words, y.order)
}

// Solves A x = b for each of the columns of b, n numbers a column, in a layout that is no larger than its order.
pub fn solve_on(
    y: Layout,
    a: &[f64],
    words: &[u32],
    b: &mut [f64],
    columns: usize,
    run: u32,
) -> Answer
    requires { y.room ≡ y.order }
    ensures { LbltSolved y columns run a.now words.now b.old result b.new }
{
    check(y, columns, a, words, b, run)?;
    sides::solve(y, a, words, b, columns);
    Ok(())
}

// The same of a factor in n·n numbers.
pub fn solve_mut(
    a: &[f64],
    words: &[u32],
    b: &mut [f64],
    n: usize,
    columns: usize,
    run: u32,
) -> Answer
    ensures { LbltSolved (full n) columns run a.now words.now b.old result b.new }
{
    solve_on(Layout::full(n), a, words, b, columns, run)
}
