// `solve_bench`: of the columns of right-hand sides in one buffer, those of one bench are solved.
#![tactic(auto)]

mod own;

ghost use Rattle.std.specs.Prelude.{◌≡◌};
ghost use Rattle.answer.specs.Answer.{Done};
ghost use Rattle.answer.specs.Refusals.{tested};
ghost use Rattle.matrix.specs.Layouts.{full};
ghost use Rattle.lblt_bench.specs.Bench.{list_tests, bench_tests, BenchSolved};

use answer::{Answer, Refusal};
use matrix::Layout;

// The list's length.
fn check_list(benches: &[u32], columns: usize) -> Answer
    ensures { result ≡ tested (list_tests columns benches.now) Done }
{
    if benches.len() != columns {
        return Err(Refusal::SliceLength);
    }
    Ok(())
}

// What `solve_mut` refuses, and a list of another length.
fn check(
    y: Layout,
    columns: usize,
    a: &[f64],
    words: &[u32],
    b: &[f64],
    benches: &[u32],
    run: u32,
) -> Answer
    ensures { result ≡ tested (bench_tests y columns run a.now words.now b.now benches.now) Done }
{
    lblt_read::check_sides(y, columns, a, b)?;
    check_list(benches, columns)?;
    lblt_read::check_words(words, y.order, run)?;
    lblt_solve::check_mark_word(words, y.order)
}

// Solves A x = b for those columns of b, n numbers a column, whose number in `benches` is `bench`.
pub fn solve_bench(
    a: &[f64],
    words: &[u32],
    b: &mut [f64],
    benches: &[u32],
    n: usize,
    columns: usize,
    bench: u32,
    run: u32,
) -> Answer
    ensures { BenchSolved (full n) columns bench run a.now words.now b.old benches.now result b.new }
{
    let y = Layout::full(n);
    check(y, columns, a, words, b, benches, run)?;
    own::solve(y, a, words, b, benches, bench);
    Ok(())
}
