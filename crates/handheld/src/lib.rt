// LBLT of three unknowns, by value: what a probe without buffers to lend calls.
#![tactic(auto)]

pub mod choice;
mod lent;
pub mod numbers;
pub mod pivot;
pub mod sides;
mod steps;

ghost use Rattle.std.specs.Prelude.{◌≡◌, ℕ};
ghost use Rattle.answer.specs.Answer.{Done};
ghost use Rattle.answer.specs.Refusals.{tested};
ghost use Rattle.matrix.specs.Layouts.{full};
ghost use Rattle.lblt_solve.specs.Solve.{solve_tests};
ghost use Rattle.handheld.specs.Shapes.{numbers_of, record_of};
ghost use Rattle.handheld.specs.Promise.{FactoredByValue, SolvedByValue};
ghost use Rattle.handheld.specs.inner.Numbers.{factored_of};

use answer::{Answer, Refusal};
use numbers::Nine;
use steps::Stepped;

// Three numbers: a column, or a right-hand side.
#[repr(C)]
#[derive(Clone, Copy)]
pub struct Column3 {
    pub row: [f64; 3],
}

// The pivots of three rows, and the mark: 0, or the marked row + 1.
#[repr(C)]
#[derive(Clone, Copy)]
pub struct Pivots3 {
    pub index: [u32; 3],
    pub size: [u32; 3],
    pub mark: u32,
}

// A factor, and its pivots.
#[derive(Clone, Copy)]
pub struct Factored {
    pub matrix: [Column3; 3],
    pub pivots: Pivots3,
}

// The lower triangle of three rows.
#[derive(Clone, Copy)]
pub struct Triangle {
    pub a00: f64,
    pub a10: f64,
    pub a20: f64,
    pub a11: f64,
    pub a21: f64,
    pub a22: f64,
}

// What the steps came to as columns, with what stood above the diagonal.
fn assembled(n: Nine, s: Stepped) -> Factored
    ensures { result ≡ factored_of n s }
{
    let second = n.second;
    let third = n.third;
    let t = s.lower;
    let pivots = s.pivots;
    let matrix = [
        Column3 {
            row: [t.a00, t.a10, t.a20],
        },
        Column3 {
            row: [second.x, t.a11, t.a21],
        },
        Column3 {
            row: [third.x, third.y, t.a22],
        },
    ];
    Factored { matrix, pivots }
}

// The Bunch–Kaufman factor of a symmetric matrix of order 3. Above the diagonal nothing is looked at, and all comes back as it was.
pub fn factor(matrix: [Column3; 3]) -> Factored
    ensures { FactoredByValue matrix result }
{
    let first = matrix[0];
    // a NaN at (1, 0) goes by the lent call, all else by the steps written out; the branch keeps the compiler from reading (1, 0) and (2, 0) at once
    if first.row[1] != first.row[1] {
        return assembled(numbers::of_columns(matrix, 2), lent::by_lent(matrix));
    }
    let n = numbers::of_columns(matrix, 2);
    assembled(n, steps::all(numbers::lower(n)))
}

// What the lent solve answers: the pivots' rule, then the mark. Nine numbers and three there are by their types.
fn check(matrix: [Column3; 3], p: Pivots3, side: Column3) -> Answer
    ensures { (run : ℕ) → result ≡ tested (solve_tests (full 3) 1 run (numbers_of matrix) (record_of run p) side.row) Done }
{
    numbers::of_columns(matrix, 2);
    numbers::of_column(side, 2);
    let words = [
        p.index[0], p.size[0], p.index[1], p.size[1], p.index[2], p.size[2], p.mark, 0,
    ];
    pivots::check(&words, 3)?;
    lblt_solve::check_mark_word(&words, 3)
}

// Solves A x = b, from a factor and its pivots. Pivots that break their rule, then a mark, are refused.
pub fn solve(matrix: [Column3; 3], pivots: Pivots3, side: Column3) -> Result<Column3, Refusal>
    ensures { SolvedByValue matrix pivots side result }
{
    check(matrix, pivots, side)?;
    let last = pivots.index[2] as usize;
    let n = numbers::of_columns(matrix, last);
    let b = numbers::of_column(side, last);
    let s = sides::by_blocks(numbers::lower(n), pivots, b);
    Ok(Column3 {
        row: [s.x, s.y, s.z],
    })
}
