// The sheet program as two functions, from the bytes of its input to the bytes of its output and of its warning.
#![tactic(auto)]

ghost use Rattle.std.specs.Prelude.{◌≡◌};
ghost use Rattle.sheet.specs.Respond.{Responds, empty_room};
ghost use Rattle.sheet.specs.Warn.{Warns};
ghost use Rattle.sheet.specs.inner.Parts.{Square, Writes, Empty};

use answer::Answer;
use sheet_page::{put_page, put_refusal, put_twin};
use sheet_text::read_sheet;

// The run number of every sheet.
const SHEET_RUN: u32 = 0;

// Factors the n·n numbers and writes the page.
fn factor_and_write(a: &mut [f64], words: &mut [u32], n: usize, out: &mut [u8]) -> usize
    requires { Square n a.old words.old }
    ensures { Writes n a.old words.old out.old result out.new }
{
    lblt::factor(a, words, n, SHEET_RUN).unwrap();
    let determinant = lblt_read::determinant(a, words, n, SHEET_RUN).unwrap();
    put_page(out, n, words, a, determinant)
}

// Done, or the sheet's first wrong line; and where the response ends, which a refusal has too.
#[derive(Clone, Copy)]
pub struct Responded {
    pub answer: Answer,
    pub end: usize,
}

// Reads the sheet into the room, then factors it or refuses it.
fn read_and_answer(s: &[u8], a: &mut [f64], words: &mut [u32], out: &mut [u8]) -> Responded
    requires { Empty a.old words.old }
    ensures { Responds s.now out.old result out.new }
{
    let n = match read_sheet(s, a) {
        Ok(n) => n,
        Err(refusal) => {
            return Responded {
                answer: Err(refusal),
                end: put_refusal(out, Err(refusal)),
            };
        }
    };
    let cells = n * n;
    let count = pivots::words(n);
    Responded {
        answer: Ok(()),
        end: factor_and_write(&mut a[..cells], &mut words[..count], n, out),
    }
}

// Writes the response to s at the start of `out`.
pub fn respond(s: &[u8], out: &mut [u8]) -> Responded
    ensures { Responds s.now out.old result out.new }
{
    let mut room = [0.0; 4096];
    let mut words = [0u32; pivots::WORDS_OF_64];
    read_and_answer(s, &mut room, &mut words, out)
}

// Reads the sheet into the room, then looks for twins.
fn read_and_warn(s: &[u8], a: &mut [f64], out: &mut [u8]) -> usize
    requires { a.old ≡ empty_room }
    ensures { Warns s.now out.old result out.new }
{
    let Ok(n) = read_sheet(s, a) else {
        return 0;
    };
    let cells = n * n;
    let found = twins::first_twin(&a[..cells], n, n).unwrap();
    match found {
        Some(pair) => put_twin(out, pair.first, pair.second),
        None => 0,
    }
}

// Writes the warning of s at the start of `out` and answers where it ends.
pub fn warn(s: &[u8], out: &mut [u8]) -> usize
    ensures { Warns s.now out.old result out.new }
{
    let mut room = [0.0; 4096];
    read_and_warn(s, &mut room, out)
}
