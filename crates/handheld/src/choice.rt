// Which pivot a step of three rows takes.
ghost use Rattle.std.specs.Prelude.{◌≡◌};
ghost use Rattle.lblt_choice.specs.Choice.{choose};
ghost use Rattle.handheld.specs.inner.Triangle.{matrix_of};
ghost use Rattle.handheld.specs.inner.Choice.{choice_of};

use crate::Triangle;
use lblt_choice::Choice;
use leaf::{abs, maximum};

const ALPHA: f64 = 0.6403882032022076;

// By the numbers that are looked at: at row k the diagonal's magnitude, the largest of its column and its row imax, the largest of that row, and its diagonal.
pub fn choose_by(k: usize, diag: f64, colmax: f64, imax: usize, rowmax: f64, other: f64) -> Choice
    ensures { result ≡ choice_of k diag colmax imax rowmax other }
{
    if maximum(diag, colmax) == 0.0 {
        return Choice::ZeroColumn;
    }
    if diag < ALPHA * colmax {
        if diag >= ALPHA * colmax * (colmax / rowmax) {
            return Choice::One(k);
        }
        if abs(other) < ALPHA * rowmax {
            return Choice::Two(imax);
        }
        return Choice::One(imax);
    }
    Choice::One(k)
}

// At row 0.
pub fn choose_first(t: Triangle) -> Choice
    ensures { result ≡ choose 3 (matrix_of t) 0 }
{
    let diag = abs(t.a00);
    let one = abs(t.a10);
    let two = abs(t.a20);
    let rest = abs(t.a21);
    if two > one {
        let rowmax = maximum(maximum(0.0, two), rest);
        return choose_by(0, diag, two, 2, rowmax, t.a22);
    }
    let rowmax = maximum(maximum(0.0, one), rest);
    choose_by(0, diag, one, 1, rowmax, t.a11)
}

// At row 1.
pub fn choose_second(t: Triangle) -> Choice
    ensures { result ≡ choose 3 (matrix_of t) 1 }
{
    let one = abs(t.a21);
    let rowmax = maximum(0.0, one);
    choose_by(1, abs(t.a11), one, 2, rowmax, t.a22)
}
