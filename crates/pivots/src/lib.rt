// The pivot record: for each row the index and size of its pivot, then the mark, then the run number; its check, readers and writers.
#![tactic(auto)]

ghost use Rattle.std.specs.Prelude.{◌≡◌, ◌<◌, ◌≤◌, length};
ghost use Rattle.pivots.specs.Words.{index_word, size_word, mark_word, run_word, words_of};
ghost use Rattle.pivots.specs.Words.{Sized, index_at, size_at, mark_at, run_at, paired, marked, stamped};
ghost use Rattle.pivots.specs.Rule.{checked};
ghost use Rattle.pivots.specs.inner.Found.{rows_found, fault_found};

use answer::{Answer, Refusal};

// The words of a record of order 64, for a lent array.
pub const WORDS_OF_64: usize = 2 * 64 + 2;

// The words of the longest record.
pub const WORDS_OF_1024: usize = 2 * 1024 + 2;

// The words of a record of order n.
pub fn words(n: usize) -> usize
    requires { n ≤ 1024 }
    ensures { result ≡ words_of n }
{
    2 * n + 2
}

pub fn index(words: &[u32], row: usize) -> usize
    requires { index_word row < length words.now }
    ensures { result ≡ index_at words.now row }
{
    words[2 * row] as usize
}

pub fn size(words: &[u32], row: usize) -> usize
    requires { size_word row < length words.now }
    ensures { result ≡ size_at words.now row }
{
    words[2 * row + 1] as usize
}

// The word as the lent record has it, 0 for none.
pub fn mark(words: &[u32], n: usize) -> usize
    requires { mark_word n < length words.now }
    ensures { result ≡ mark_at n words.now }
{
    words[2 * n] as usize
}

pub fn run(words: &[u32], n: usize) -> u32
    requires { run_word n < length words.now }
    ensures { result ≡ run_at n words.now }
{
    words[2 * n + 1]
}

pub fn put_pair(words: &mut [u32], row: usize, index: u32, size: u32)
    requires { size_word row < length words.old }
    ensures { words.new ≡ paired words.old row index size }
{
    words[2 * row] = index;
    words[2 * row + 1] = size;
}

pub fn put_mark(words: &mut [u32], n: usize, mark: u32)
    requires { mark_word n < length words.old }
    ensures { words.new ≡ marked n words.old mark }
{
    words[2 * n] = mark;
}

pub fn put_run(words: &mut [u32], n: usize, run: u32)
    requires { run_word n < length words.old }
    ensures { words.new ≡ stamped n words.old run }
{
    words[2 * n + 1] = run;
}

// The rows of the block that starts at row k, none where it breaks the rule.
fn block(words: &[u32], n: usize, k: usize) -> Option<usize>
    requires sized { Sized n words.now }
    requires k_lt_n { k < n }
    ensures { result ≡ rows_found n words.now k }
{
    let size_k = size(words, k);
    let index_k = index(words, k);
    if n <= index_k {
        return None;
    }
    if size_k == 1 {
        if index_k < k {
            return None;
        }
        return Some(1);
    }
    if size_k != 2 {
        return None;
    }
    // from here on k + 1 < n, since index_k < n
    if index_k <= k {
        return None;
    }
    if index(words, k + 1) != index_k {
        return None;
    }
    if size(words, k + 1) != 2 {
        return None;
    }
    Some(2)
}

// The first row that breaks the rule, none if none does.
fn fault(words: &[u32], n: usize) -> Option<usize>
    requires { Sized n words.now }
    ensures { result ≡ fault_found n words.now }
{
    let mut k: usize = 0;
    // A `loop`: a block has one or two rows, as the record says, so that no range goes over them, and the first that breaks the rule ends it.
    loop {
        if n <= k {
            break None;
        }
        let Some(rows) = block(words, n, k) else {
            break Some(k);
        };
        k += rows;
    }
}

pub fn check(words: &[u32], n: usize) -> Answer
    requires { Sized n words.now }
    ensures { result ≡ checked n words.now }
{
    if let Some(row) = fault(words, n) {
        return Err(Refusal::BadRecord(row as u32));
    }
    let marked = mark(words, n);
    if marked == 0 {
        return Ok(());
    }
    if n < marked {
        return Err(Refusal::BadRecord(n as u32));
    }
    if size(words, marked - 1) != 1 {
        return Err(Refusal::BadRecord(n as u32));
    }
    if index(words, marked - 1) != marked - 1 {
        return Err(Refusal::BadRecord(n as u32));
    }
    Ok(())
}
