// All steps of three rows, written out.
ghost use Rattle.pivots.specs.Words.{paired};
ghost use Rattle.lblt.specs.Step.{stepped};
ghost use Rattle.lblt.specs.Factor.{final_state};
ghost use Rattle.handheld.specs.inner.Triangle.{matrix_of};
ghost use Rattle.handheld.specs.inner.Steps.{blank, state_of, Comes};

use crate::choice::{choose_first, choose_second};
use crate::pivot::{one_first, one_second, two_first};
use crate::{Pivots3, Triangle};
use lblt::first_mark;
use lblt_choice::Choice;
use leaf::{abs, maximum};

#[derive(Clone, Copy)]
pub struct Stepped {
    pub lower: Triangle,
    pub pivots: Pivots3,
}

// The pairs of rows 0 and 1.
#[derive(Clone, Copy)]
struct Pairs {
    index0: u32,
    size0: u32,
    index1: u32,
    size1: u32,
}

// From row 2 on: a row of its own, marked where it is zero or NaN.
fn from_third(t: Triangle, p: Pairs, mark: u32) -> Stepped
    ensures { Comes result (stepped 1 3 (state_of t (paired (paired blank 0 p.index0 p.size0) 1 p.index1 p.size1) 2 mark)) }
{
    let index = [p.index0, p.index1, 2];
    let size = [p.size0, p.size1, 1];
    if maximum(abs(t.a22), 0.0) == 0.0 {
        let first = first_mark(mark, 2);
        return Stepped {
            lower: t,
            pivots: Pivots3 {
                index,
                size,
                mark: first,
            },
        };
    }
    Stepped {
        lower: t,
        pivots: Pivots3 { index, size, mark },
    }
}

// From row 1 on, after a row 0 of its own.
fn from_second(t: Triangle, index0: u32, mark: u32) -> Stepped
    ensures { Comes result (stepped 2 3 (state_of t (paired blank 0 index0 1) 1 mark)) }
{
    match choose_second(t) {
        Choice::ZeroColumn => {
            let pairs = Pairs {
                index0,
                size0: 1,
                index1: 1,
                size1: 1,
            };
            from_third(t, pairs, first_mark(mark, 1))
        }
        Choice::One(p) => {
            let pairs = Pairs {
                index0,
                size0: 1,
                index1: p as u32,
                size1: 1,
            };
            from_third(one_second(t, p), pairs, mark)
        }
        Choice::Two(_) => Stepped {
            lower: t,
            pivots: Pivots3 {
                index: [index0, 2, 2],
                size: [1, 2, 2],
                mark,
            },
        },
    }
}

pub fn all(t: Triangle) -> Stepped
    ensures { Comes result (final_state 3 (matrix_of t) blank) }
{
    match choose_first(t) {
        Choice::ZeroColumn => from_second(t, 0, 1),
        Choice::One(p) => from_second(one_first(t, p), p as u32, 0),
        Choice::Two(p) => {
            let pairs = Pairs {
                index0: p as u32,
                size0: 2,
                index1: p as u32,
                size1: 2,
            };
            from_third(two_first(t, p), pairs, 0)
        }
    }
}
