// The strict reader: a whole sheet, or its first wrong line.
ghost use Rattle.std.specs.Prelude.{◌≡◌, ◌≤◌, Err, true, drop, set};
ghost use Rattle.std.specs.Float.{binary64};
ghost use Rattle.std.specs.Float.Ieee.{of_bits};
ghost use Rattle.answer.specs.declared.Refusal.TheVariants.{BadLine};
ghost use Rattle.sheet_text.specs.inner.Line.{found_in};
ghost use Rattle.sheet_text.specs.Place.{places};
ghost use Rattle.sheet_text.specs.inner.Read.{entry_at, take_entries, Reached, verdict};
ghost use Rattle.sheet_text.specs.Sheet.{Reads};

use crate::line::{Found, entry_line, number_line};
use crate::place::{Place, Places};
use answer::Refusal;

fn wrong(line: usize) -> Refusal
    requires { line ≤ 5000 }
    ensures { result ≡ BadLine line }
{
    Refusal::BadLine(line as u32)
}

// The bits of the entry line of one place.
fn entry_at(s: &[u8], at: usize, p: Place) -> Option<Found<u64>>
    ensures { result ≡ found_in s.now (entry_at p (drop at s.now)) }
{
    let Found { value, next } = entry_line(s, at)?;
    if value.row != p.row || value.column != p.column {
        return None;
    }
    Some(Found {
        value: value.bits,
        next,
    })
}

// Stores a number where the slice has room for it.
fn store(a: &mut [f64], at: usize, bits: u64)
    ensures { a.new ≡ set a.old at (of_bits binary64 bits) }
{
    if at < a.len() {
        a[at] = leaf::from_bits(bits);
    }
}

// The entry lines in their order, each stored, up to the first that is wrong. Answers how many there are.
fn entries(s: &[u8], at: usize, n: usize, a: &mut [f64]) -> Result<Found<usize>, Refusal>
    requires { n ≤ 64 }
    ensures { Reached s.now result a.new (take_entries n (places n) (drop at s.now) 0 a.old) }
{
    let mut count = 0;
    let mut next = at;
    for p in Places::new(n) {
        let bits = entry_at(s, next, p).ok_or(wrong(count + 2))?;
        store(a, p.row + p.column * n, bits.value);
        count += 1;
        next = bits.next;
    }
    Ok(Found { value: count, next })
}

// The last line, and nothing after it. Answers the order.
fn last_line(s: &[u8], at: usize, n: usize, count: usize) -> Result<usize, Refusal>
    requires { count ≤ 4096 }
    ensures { result ≡ verdict n true count (drop at s.now) }
{
    let end = number_line(s, at, b"end\t").ok_or(wrong(count + 2))?;
    if end.value != count {
        return Err(wrong(count + 2));
    }
    if end.next < s.len() {
        return Err(wrong(count + 3));
    }
    Ok(n)
}

// Reads a whole sheet; entry (i, j) goes to i + j * order. Answers the order, or the first wrong line.
pub fn read_sheet(s: &[u8], a: &mut [f64]) -> Result<usize, Refusal>
    ensures { Reads s.now a.old result a.new }
{
    let order = number_line(s, 0, b"order\t").ok_or(wrong(1))?;
    let n = order.value;
    if n == 0 || 64 < n {
        return Err(wrong(1));
    }
    let reached = entries(s, order.next, n, a)?;
    last_line(s, reached.next, n, reached.value)
}
