// The parts of a line, each read at a place of the bytes: a word, a number, sixteen digits, a whole line.
ghost use Rattle.std.specs.Prelude.{◌≡◌, ◌<◌, drop};
ghost use Rattle.sheet_text.specs.inner.Parse.{starts_with, number, later_digits, bits, number_after, any_entry};
ghost use Rattle.sheet_text.specs.inner.Line.{found_in};

use crate::digit::digit_value;

// What was read, and where the reading goes on.
#[derive(Clone, Copy)]
pub struct Found<T> {
    pub value: T,
    pub next: usize,
}

// Whether the word stands at `at`.
pub fn word_stands(s: &[u8], at: usize, word: &[u8]) -> bool
    ensures { result ≡ starts_with word.now (drop at s.now) }
{
    s[at.min(s.len())..].starts_with(word)
}

// A decimal number below 10,000 with no leading zero, ended by the byte `stop`.
pub fn read_number(s: &[u8], at: usize, stop: u8) -> Option<Found<usize>>
    ensures { result ≡ found_in s.now (number stop (drop at s.now)) }
{
    let first = digit_value(*s.get(at)?);
    if 9 < first {
        return None;
    }
    read_digits(s, at + 1, stop, usize::from(first))
}

// The digits after the first.
fn read_digits(s: &[u8], at: usize, stop: u8, first: usize) -> Option<Found<usize>>
    requires { first < 10 }
    ensures { result ≡ found_in s.now (later_digits stop first (drop at s.now)) }
{
    let mut value = first;
    for i in at..s.len() {
        let b = s[i];
        if b == stop {
            return Some(Found { value, next: i + 1 });
        }
        let digit = digit_value(b);
        if value == 0 || 999 < value || 9 < digit {
            return None;
        }
        value = value * 10 + usize::from(digit);
    }
    None
}

// Sixteen hexadecimal digits and the line's end.
pub fn read_bits(s: &[u8], at: usize) -> Option<Found<u64>>
    ensures { result ≡ found_in s.now (bits (drop at s.now)) }
{
    let text = s.get(at..)?;
    let mut value: u64 = 0;
    for i in 0..16 {
        let digit = digit_value(*text.get(i)?);
        if 15 < digit {
            return None;
        }
        value = value * 16 + u64::from(digit);
    }
    if *text.get(16)? != b'\n' {
        return None;
    }
    Some(Found {
        value,
        next: at + 17,
    })
}

// A word, a number, the line's end.
pub fn number_line(s: &[u8], at: usize, word: &[u8]) -> Option<Found<usize>>
    ensures { result ≡ found_in s.now (number_after word.now (drop at s.now)) }
{
    if !word_stands(s, at, word) {
        return None;
    }
    read_number(s, at + word.len(), b'\n')
}

// What an entry line holds.
#[derive(Clone, Copy)]
pub struct Entry {
    pub row: usize,
    pub column: usize,
    pub bits: u64,
}

pub fn entry_line(s: &[u8], at: usize) -> Option<Found<Entry>>
    ensures { result ≡ found_in s.now (any_entry (drop at s.now)) }
{
    if !word_stands(s, at, b"entry\t") {
        return None;
    }
    let row = read_number(s, at + 6, b'\t')?;
    let column = read_number(s, row.next, b'\t')?;
    let bits = read_bits(s, column.next)?;
    Some(Found {
        value: Entry {
            row: row.value,
            column: column.value,
            bits: bits.value,
        },
        next: bits.next,
    })
}
