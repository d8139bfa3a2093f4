// What a pivot does to a triangle of three rows: the interchange, then the update.
ghost use Rattle.std.specs.Prelude.{◌≡◌, ◌<◌};
ghost use Rattle.lblt_pivot.specs.Update.{update1, update2};
ghost use Rattle.lblt_pivot.specs.Pivot.{pivot1, pivot2};
ghost use Rattle.handheld.specs.inner.Triangle.{matrix_of, triangle_of};

use crate::Triangle;
use lblt_pivot::Block;
use leaf::abs;

// ---- size 1 at row 0

fn update_first(t: Triangle) -> Triangle
    ensures { result ≡ triangle_of (update1 3 0 (matrix_of t)) }
{
    let inv = 1.0 / t.a00;
    let one = t.a10 * (-inv);
    let two = t.a20 * (-inv);
    Triangle {
        a00: t.a00,
        a10: t.a10 * inv,
        a20: t.a20 * inv,
        a11: t.a11 + one * t.a10,
        a21: t.a21 + two * t.a10,
        a22: t.a22 + two * t.a20,
    }
}

pub fn one_first(t: Triangle, p: usize) -> Triangle
    requires { p < 3 }
    ensures { result ≡ triangle_of (pivot1 3 0 p (matrix_of t)) }
{
    if p == 1 {
        return update_first(Triangle {
            a00: t.a11,
            a10: t.a10,
            a20: t.a21,
            a11: t.a00,
            a21: t.a20,
            a22: t.a22,
        });
    }
    if p == 2 {
        return update_first(Triangle {
            a00: t.a22,
            a10: t.a21,
            a20: t.a20,
            a11: t.a11,
            a21: t.a10,
            a22: t.a00,
        });
    }
    update_first(t)
}

// ---- size 2 at row 0

fn update_both(t: Triangle) -> Triangle
    ensures { result ≡ triangle_of (update2 3 0 (matrix_of t)) }
{
    let d = abs(t.a10);
    let block = Block {
        d,
        d11: t.a11 / d,
        d22: t.a00 / d,
        d21: t.a10 / d,
    };
    let w = block.work(t.a20, t.a21);
    Triangle {
        a00: t.a00,
        a10: t.a10,
        a20: w.w1,
        a11: t.a11,
        a21: w.w2,
        a22: t.a22 - t.a20 * w.w1 - t.a21 * w.w2,
    }
}

pub fn two_first(t: Triangle, p: usize) -> Triangle
    requires p_nonzero { 0 < p }
    requires p_bound { p < 3 }
    ensures { result ≡ triangle_of (pivot2 3 0 p (matrix_of t)) }
{
    if p == 2 {
        return update_both(Triangle {
            a00: t.a00,
            a10: t.a20,
            a20: t.a10,
            a11: t.a22,
            a21: t.a21,
            a22: t.a11,
        });
    }
    update_both(t)
}

// ---- size 1 at row 1

fn update_second(t: Triangle) -> Triangle
    ensures { result ≡ triangle_of (update1 3 1 (matrix_of t)) }
{
    let inv = 1.0 / t.a11;
    Triangle {
        a00: t.a00,
        a10: t.a10,
        a20: t.a20,
        a11: t.a11,
        a21: t.a21 * inv,
        a22: t.a22 + t.a21 * (-inv) * t.a21,
    }
}

pub fn one_second(t: Triangle, p: usize) -> Triangle
    requires p_nonzero { 0 < p }
    requires p_bound { p < 3 }
    ensures { result ≡ triangle_of (pivot1 3 1 p (matrix_of t)) }
{
    if p == 2 {
        return update_second(Triangle {
            a00: t.a00,
            a10: t.a10,
            a20: t.a20,
            a11: t.a22,
            a21: t.a21,
            a22: t.a11,
        });
    }
    update_second(t)
}
