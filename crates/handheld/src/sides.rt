// The solve of one side, written out for each way in which three rows fall into blocks.
ghost use Rattle.std.specs.Prelude.{◌≡◌, ℕ, ◌<◌};
ghost use Rattle.pivots.specs.Rule.{Accepted};
ghost use Rattle.lblt_solve_columns.specs.Column.{swap_rows, solve_column};
ghost use Rattle.handheld.specs.Shapes.{record_of};
ghost use Rattle.handheld.specs.inner.Numbers.{three_of};
ghost use Rattle.handheld.specs.inner.Triangle.{matrix_of};
ghost use Rattle.handheld.specs.inner.Blocks.{one_one_one, one_two, two_one};

use crate::numbers::Three;
use crate::{Pivots3, Triangle};

// Rows 0 and p exchanged.
fn swap_first(s: Three, p: u32) -> Three
    requires { p < 3 }
    ensures { swap_rows (three_of s) 0 p ≡ three_of result }
{
    if p == 1 {
        return Three {
            x: s.y,
            y: s.x,
            z: s.z,
        };
    }
    if p == 2 {
        return Three {
            x: s.z,
            y: s.y,
            z: s.x,
        };
    }
    s
}

// Rows 1 and p exchanged.
fn swap_second(s: Three, p: u32) -> Three
    requires p_nonzero { 0 < p }
    requires p_bound { p < 3 }
    ensures { swap_rows (three_of s) 1 p ≡ three_of result }
{
    if p == 2 {
        return Three {
            x: s.x,
            y: s.z,
            z: s.y,
        };
    }
    s
}

// Three blocks of one row.
pub fn by_ones(t: Triangle, index0: u32, index1: u32, b: Three) -> Three
    requires index0_bound { index0 < 3 }
    requires index1_nonzero { 0 < index1 }
    requires index1_bound { index1 < 3 }
    ensures { (mark run : ℕ) → three_of result ≡ solve_column 3 (matrix_of t) (one_one_one index0 index1 mark run) (three_of b) }
{
    let s = swap_first(b, index0);
    let u = swap_second(
        Three {
            x: s.x,
            y: s.y - t.a10 * s.x,
            z: s.z - t.a20 * s.x,
        },
        index1,
    );
    let x = u.x / t.a00;
    let y = u.y / t.a11;
    let z = (u.z - t.a21 * u.y) / t.a22;
    let v = swap_second(
        Three {
            x,
            y: y - t.a21 * z,
            z,
        },
        index1,
    );
    swap_first(
        Three {
            x: v.x - t.a10 * v.y - t.a20 * v.z,
            y: v.y,
            z: v.z,
        },
        index0,
    )
}

// A block of one row, then one of two.
pub fn by_one_two(t: Triangle, index0: u32, b: Three) -> Three
    requires { index0 < 3 }
    ensures { (mark run : ℕ) → three_of result ≡ solve_column 3 (matrix_of t) (one_two index0 mark run) (three_of b) }
{
    let s = swap_first(b, index0);
    let u = s.y - t.a10 * s.x;
    let v = s.z - t.a20 * s.x;
    let det = t.a11 * t.a22 - t.a21 * t.a21;
    let x = s.x / t.a00;
    let y = (u * t.a22 - v * t.a21) / det;
    let z = (v * t.a11 - u * t.a21) / det;
    swap_first(
        Three {
            x: x - t.a10 * y - t.a20 * z,
            y,
            z,
        },
        index0,
    )
}

// A block of two rows, then one of one.
pub fn by_two_one(t: Triangle, index0: u32, b: Three) -> Three
    requires index0_nonzero { 0 < index0 }
    requires index0_bound { index0 < 3 }
    ensures { (mark run : ℕ) → three_of result ≡ solve_column 3 (matrix_of t) (two_one index0 mark run) (three_of b) }
{
    let s = swap_second(b, index0);
    let det = t.a00 * t.a11 - t.a10 * t.a10;
    let x = (s.x * t.a11 - s.y * t.a10) / det;
    let y = (s.y * t.a00 - s.x * t.a10) / det;
    let z = (s.z - t.a20 * s.x - t.a21 * s.y) / t.a22;
    swap_second(
        Three {
            x: x - t.a20 * z,
            y: y - t.a21 * z,
            z,
        },
        index0,
    )
}

// By the sizes that stand in the pivots.
pub fn by_blocks(t: Triangle, p: Pivots3, b: Three) -> Three
    requires { Accepted 3 (record_of 0 p) }
    ensures { (run : ℕ) → three_of result ≡ solve_column 3 (matrix_of t) (record_of run p) (three_of b) }
{
    let index0 = p.index[0];
    let index1 = p.index[1];
    if p.size[0] != 1 {
        return by_two_one(t, index0, b);
    }
    if p.size[1] != 1 {
        return by_one_two(t, index0, b);
    }
    by_ones(t, index0, index1, b)
}
