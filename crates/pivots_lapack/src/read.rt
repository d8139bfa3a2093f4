// From a list to a record.
ghost use Rattle.std.specs.Prelude.{◌≡◌, ◌≤◌, length};
ghost use Rattle.answer.specs.declared.Refusal.TheVariants.{BadList};
ghost use Rattle.answer.specs.Answer.{Done};
ghost use Rattle.answer.specs.Refusals.{tested};
ghost use Rattle.pivots.specs.Words.{Sized, words_of};
ghost use Rattle.pivots.specs.Rule.{rule_tests};
ghost use Rattle.pivots_lapack.specs.Lists.{record_of};

use crate::number::Pair;
use answer::{Answer, Refusal};

// Writes the whole record.
pub fn put_record(list: &[i32], mark: u32, run: u32, words: &mut [u32], n: usize)
    requires list_len { length list.now ≡ n }
    requires sized { Sized n words.old }
    ensures { words.new ≡ record_of list.now mark run }
{
    for (row, number) in list.iter().enumerate() {
        let pair = Pair::from(*number);
        pivots::put_pair(words, row, pair.index, pair.size);
    }
    pivots::put_mark(words, n, mark);
    pivots::put_run(words, n, run);
}

// What the record's rule says of the record that a list stands for; it is written to the first words of `room`.
#[tactic(auto, unfolding(answer::specs::Refusals::tested, pivots::specs::Rule::checked))]
fn judge_in(list: &[i32], mark: u32, run: u32, room: &mut [u32], n: usize) -> Answer
    requires list_len { length list.now ≡ n }
    requires n_bound { n ≤ 1024 }
    requires n_in_bounds { words_of n ≤ length room.old }
    ensures { result ≡ tested (rule_tests BadList n (record_of list.now mark run)) Done }
{
    let words = &mut room[0..pivots::words(n)];
    put_record(list, mark, run, words, n);
    pivots::check(words, n).map_err(|fault| Refusal::BadList(fault.place()))
}

// The same with room for N words.
fn judge_among<const N: usize>(list: &[i32], mark: u32, run: u32, n: usize) -> Answer
    requires list_len { length list.now ≡ n }
    requires n_bound { n ≤ 1024 }
    requires n_in_bounds { words_of n ≤ N }
    requires room_bound { N ≤ 4096 }
    ensures { result ≡ tested (rule_tests BadList n (record_of list.now mark run)) Done }
{
    let mut room = [0u32; N];
    judge_in(list, mark, run, &mut room, n)
}

// The same in a room of its own.
pub fn judge(list: &[i32], mark: u32, run: u32, n: usize) -> Answer
    requires list_len { length list.now ≡ n }
    requires n_bound { n ≤ 1024 }
    ensures { result ≡ tested (rule_tests BadList n (record_of list.now mark run)) Done }
{
    if n <= 64 {
        return judge_among::<{ pivots::WORDS_OF_64 }>(list, mark, run, n);
    }
    judge_among::<{ pivots::WORDS_OF_1024 }>(list, mark, run, n)
}
