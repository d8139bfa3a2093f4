// The Bunch–Kaufman factor of a symmetric matrix, in its lower triangle.
#![tactic(auto)]

ghost use Rattle.std.specs.Prelude.{◌+◌, ◌<◌};
ghost use Rattle.matrix.specs.Grid.{load};
ghost use Rattle.matrix.specs.Layouts.{full, lower, Laid};
ghost use Rattle.pivots.specs.Words.{Sized};
ghost use Rattle.lblt.specs.Step.{step};
ghost use Rattle.lblt.specs.inner.Engine.{Stands, state_at, Steps, Filled};
ghost use Rattle.lblt.specs.Factor.{Factored};

use answer::{Answer, Refusal};
use lblt_choice::Choice;
use matrix::Layout;

mod notes;

pub use notes::first_mark;

// The row reached, and the first mark, as the lent record has it: 0, or the marked row + 1.
#[derive(Clone, Copy)]
struct Reached {
    row: usize,
    mark: u32,
}

impl Reached {
    // One step: the next row, and the first mark.
    fn step(self, y: Layout, a: &mut [f64], words: &mut [u32]) -> Reached
        requires laid { Laid y a.old }
        requires sized { Sized y.order words.old }
        requires row_lt_order { self.row < y.order }
        ensures { Stands y a.old a.new words.new result (step y.order (state_at (load (lower y) a.old) words.old self)) }
    {
        let k = self.row;
        let mark = self.mark;
        match lblt_choice::choose(y, a, k) {
            Choice::ZeroColumn => {
                notes::one(words, k, k);
                Reached {
                    row: k + 1,
                    mark: notes::first_mark(mark, k),
                }
            }
            Choice::One(p) => {
                lblt_pivot::pivot1(y, a, k, p);
                notes::one(words, k, p);
                Reached { row: k + 1, mark }
            }
            Choice::Two(p) => {
                lblt_pivot::pivot2(y, a, k, p);
                notes::two(words, k, p);
                Reached { row: k + 2, mark }
            }
        }
    }
}

// All steps; the first mark.
fn steps(y: Layout, a: &mut [f64], words: &mut [u32]) -> u32
    requires laid { Laid y a.old }
    requires sized { Sized y.order words.old }
    ensures { Steps y a.old words.old a.new words.new result }
{
    let n = y.order;
    let mut s = Reached { row: 0, mark: 0 };
    // A `while`: a step takes one row or two, as it finds its pivot.
    while s.row < n {
        s = s.step(y, a, words);
    }
    s.mark
}

// All steps, then the mark and the run number, in slices that fit. The mark comes back.
pub fn fill(y: Layout, a: &mut [f64], words: &mut [u32], run: u32) -> u32
    requires laid { Laid y a.old }
    requires sized { Sized y.order words.old }
    ensures { Filled y run a.old words.old a.new words.new result }
{
    let mark = steps(y, a, words);
    pivots::put_mark(words, y.order, mark);
    pivots::put_run(words, y.order, run);
    mark
}

// Factors the lower triangle of a layout, and writes its pivot record, which ends with the caller's run number. An order above 1,024,
// then a wrong length of the matrix, then of the record, is refused, and nothing is written.
pub fn factor_on(y: Layout, a: &mut [f64], words: &mut [u32], run: u32) -> Answer
    ensures { Factored y run a.old words.old result a.new words.new }
{
    y.check(0, a.len())?;
    if words.len() != pivots::words(y.order) {
        return Err(Refusal::SliceLength);
    }
    fill(y, a, words, run);
    Ok(())
}

// The same of a matrix of order n in n·n numbers, column by column.
pub fn factor(a: &mut [f64], words: &mut [u32], n: usize, run: u32) -> Answer
    ensures { Factored (full n) run a.old words.old result a.new words.new }
{
    factor_on(Layout::full(n), a, words, run)
}
