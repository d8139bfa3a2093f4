// Cholesky of a lent matrix, whole or in batches of rows: the lower triangle of the first n rows in a room of room·room numbers.
#![tactic(auto)]

ghost use Rattle.matrix.specs.Layouts.{in_room};
ghost use Rattle.cholesky.specs.Promise.{Extended};
ghost use Rattle.cholesky.specs.Floored.{ExtendedFloored};
ghost use Rattle.cholesky.specs.Readers.{Copied, Unpacked, CholeskyDetermined};
ghost use Rattle.cholesky.specs.Solve.{CholeskySolved};

mod engine;
mod readers;

use answer::{Answer, Refusal};
pub use engine::answer_to;
use matrix::Layout;

// What came of a call with a floor, and how many columns used it: a struct, since the count is promised on a refusal too.
#[derive(Clone, Copy)]
pub struct Floored {
    pub answer: Answer,
    pub used: usize,
}

// The first `earlier` rows of a layout are factored already: the others are, with a floor for their diagonals.
fn extend_within(y: Layout, a: &mut [f64], earlier: usize, floor: f64) -> Floored
    ensures { ExtendedFloored floor y earlier a.old a.new result }
{
    if let Err(refusal) = y.check(earlier, a.len()) {
        return Floored {
            answer: Err(refusal),
            used: 0,
        };
    }
    engine::run(y, a, earlier, floor)
}

// The same without a floor: 0 fails its test, and stands in for nothing.
pub fn extend_on(y: Layout, a: &mut [f64], earlier: usize) -> Answer
    ensures { Extended y earlier a.old a.new result }
{
    let floored = extend_within(y, a, earlier, 0.0);
    floored.answer
}

pub fn extend(a: &mut [f64], room: usize, earlier: usize, n: usize) -> Answer
    ensures { Extended (in_room n room) earlier a.old a.new result }
{
    extend_on(Layout::in_room(n, room), a, earlier)
}

pub fn factor(a: &mut [f64], room: usize, n: usize) -> Answer
    ensures { Extended (in_room n room) 0 a.old a.new result }
{
    extend(a, room, 0, n)
}

pub fn extend_floored(a: &mut [f64], room: usize, earlier: usize, n: usize, floor: f64) -> Floored
    ensures { ExtendedFloored floor (in_room n room) earlier a.old a.new result }
{
    extend_within(Layout::in_room(n, room), a, earlier, floor)
}

pub fn factor_floored(a: &mut [f64], room: usize, n: usize, floor: f64) -> Floored
    ensures { ExtendedFloored floor (in_room n room) 0 a.old a.new result }
{
    extend_floored(a, room, 0, n, floor)
}

// Solves A x = b for each of the columns of b, n numbers a column, by the factor of A in a layout.
pub fn solve_on(y: Layout, a: &[f64], b: &mut [f64], columns: usize) -> Answer
    ensures { CholeskySolved y columns a.now b.old b.new result }
{
    if 1024 < columns {
        return Err(Refusal::OutOfRange);
    }
    y.check(0, a.len())?;
    if b.len() != y.order * columns {
        return Err(Refusal::SliceLength);
    }
    cholesky_solve::solve_sides(y, a, b, columns);
    Ok(())
}

pub fn solve_mut(a: &[f64], b: &mut [f64], room: usize, n: usize, columns: usize) -> Answer
    ensures { CholeskySolved (in_room n room) columns a.now b.old b.new result }
{
    solve_on(Layout::in_room(n, room), a, b, columns)
}

// The factor in a lent n·n matrix of its own, +0 above the diagonal.
pub fn l(a: &[f64], l: &mut [f64], room: usize, n: usize) -> Answer
    ensures { Copied (in_room n room) a.now l.old l.new result }
{
    let y = Layout::in_room(n, room);
    y.check(0, a.len())?;
    if l.len() != y.order * y.order {
        return Err(Refusal::SliceLength);
    }
    readers::copy(y, a, l);
    Ok(())
}

// The strict upper part of the first n rows and columns becomes +0.
pub fn unpack(a: &mut [f64], room: usize, n: usize) -> Answer
    ensures { Unpacked (in_room n room) a.old a.new result }
{
    let y = Layout::in_room(n, room);
    y.check(0, a.len())?;
    readers::clear_above(y, a);
    Ok(())
}

// The product of the diagonal, squared.
pub fn determinant(a: &[f64], room: usize, n: usize) -> Result<f64, Refusal>
    ensures { CholeskyDetermined (in_room n room) a.now result }
{
    let y = Layout::in_room(n, room);
    y.check(0, a.len())?;
    let product = readers::diagonal(y, a);
    Ok(product * product)
}
