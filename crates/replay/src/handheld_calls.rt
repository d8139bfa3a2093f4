// The calls of the handheld: A holds its nine numbers, B the side, R three indexes, three sizes and the mark.
use crate::outcome::Outcome;
use handheld::{Column3, Pivots3};

fn columns(numbers: [f64; 9]) -> [Column3; 3] {
    let [a00, a10, a20, a01, a11, a21, a02, a12, a22] = numbers;
    [
        Column3 {
            row: [a00, a10, a20],
        },
        Column3 {
            row: [a01, a11, a21],
        },
        Column3 {
            row: [a02, a12, a22],
        },
    ]
}

fn numbers(columns: [Column3; 3]) -> [f64; 9] {
    let [first, second, third] = columns;
    let [a00, a10, a20] = first.row;
    let [a01, a11, a21] = second.row;
    let [a02, a12, a22] = third.row;
    [a00, a10, a20, a01, a11, a21, a02, a12, a22]
}

fn pivots(words: [u32; 7]) -> Pivots3 {
    let [index0, index1, index2, size0, size1, size2, mark] = words;
    Pivots3 {
        index: [index0, index1, index2],
        size: [size0, size1, size2],
        mark,
    }
}

fn words(pivots: Pivots3) -> [u32; 7] {
    let [index0, index1, index2] = pivots.index;
    let [size0, size1, size2] = pivots.size;
    [index0, index1, index2, size0, size1, size2, pivots.mark]
}

// It has no answer.
pub fn factor(a: &mut [f64], r: &mut [u32]) -> Outcome {
    let (Some(a), Some(r)) = (a.as_mut_array::<9>(), r.as_mut_array::<7>()) else {
        return Outcome::no_call();
    };
    let factored = handheld::factor(columns(*a));
    *a = numbers(factored.matrix);
    *r = words(factored.pivots);
    Outcome::done(0)
}

pub fn solve(a: &[f64], b: &mut [f64], r: &[u32]) -> Outcome {
    let (Some(a), Some(b), Some(r)) = (a.as_array::<9>(), b.as_mut_array::<3>(), r.as_array::<7>())
    else {
        return Outcome::no_call();
    };
    match handheld::solve(columns(*a), pivots(*r), Column3 { row: *b }) {
        Ok(solution) => {
            let row = solution.row;
            *b = row;
            Outcome::done(0)
        }
        Err(refusal) => refusal.into(),
    }
}
