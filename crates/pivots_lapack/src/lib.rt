// LAPACK pivot lists, as `dsytrf` writes them for the lower triangle: read to a pivot record, and written from one.
#![tactic(auto)]

mod number;
mod read;
mod write;

ghost use Rattle.std.specs.Prelude.{◌≡◌};
ghost use Rattle.answer.specs.Answer.{Done};
ghost use Rattle.answer.specs.Refusals.{tested};
ghost use Rattle.pivots_lapack.specs.Calls.{slice_tests, write_tests, ListRead, ListWritten};

use answer::{Answer, Refusal};

// What is handed back beside a list: INFO and the run number.
#[derive(Clone, Copy, Debug, PartialEq, Eq)]
pub struct Stamp {
    pub info: i32,
    pub run: u32,
}

// The order, then the list and the record.
#[tactic(auto, unfolding(answer::specs::Refusals::tested))]
fn check_slices(list: &[i32], words: &[u32], n: usize) -> Answer
    ensures { result ≡ tested (slice_tests n list.now words.now) Done }
{
    if 1024 < n {
        return Err(Refusal::OutOfRange);
    }
    if list.len() != n {
        return Err(Refusal::SliceLength);
    }
    if words.len() != pivots::words(n) {
        return Err(Refusal::SliceLength);
    }
    Ok(())
}

// The record that a list and INFO stand for, with a run number.
#[tactic(auto, unfolding(answer::specs::Refusals::tested))]
pub fn from_lapack(list: &[i32], info: i32, words: &mut [u32], n: usize, run: u32) -> Answer
    ensures { ListRead n run list.now info words.old result words.new }
{
    check_slices(list, words, n)?;
    let mark = number::mark(info, n);
    read::judge(list, mark, run, n)?;
    read::put_record(list, mark, run, words, n);
    Ok(())
}

// What a list is written from: the slices, then the record.
#[tactic(auto, unfolding(answer::specs::Refusals::tested, pivots::specs::Rule::checked))]
fn check_record(words: &[u32], list: &[i32], n: usize) -> Answer
    ensures { result ≡ tested (write_tests n words.now list.now) Done }
{
    check_slices(list, words, n)?;
    pivots::check(words, n)
}

// The list of a record; INFO and the run number come back.
#[tactic(auto, unfolding(answer::specs::Refusals::tested, pivots::specs::Rule::checked))]
pub fn to_lapack(words: &[u32], list: &mut [i32], n: usize) -> Result<Stamp, Refusal>
    ensures { ListWritten n words.now list.old result list.new }
{
    check_record(words, list, n)?;
    write::put_numbers(words, list, n);
    Ok(Stamp {
        info: pivots::mark(words, n) as i32,
        run: pivots::run(words, n),
    })
}
