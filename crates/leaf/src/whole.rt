// The root of a whole number, cut to a whole number: a guess that is tested, and the plain root where the test fails.
// The guess branches before each subtraction: with `checked_sub` in its place LLVM selects instead, and a root takes a tenth longer.
ghost use Rattle.std.specs.Prelude.{◌≡◌, ◌*◌, ◌^◌, ◌<◌, IfSome};
ghost use Rattle.leaf.specs.inner.Cut.{CutRoot};
ghost use Rattle.leaf.specs.inner.Guess.{Half, Halves};

use crate::table;

// The first 54 binary digits of the root of n * 2 ^ 54.
pub fn root(n: u64) -> u64
    requires { n < 2 ^ 54 }
    ensures { CutRoot (n * 2 ^ 54) result }
{
    guessed(n).unwrap_or_else(|| by_digits(n))
}

// The root, if the guess is near enough for the test.
// First a reciprocal root of x = n / 2 ^ 54, in units of 2 ^ -30, by a tangent to its curve.
fn guessed(n: u64) -> Option<u64>
    requires { n < 2 ^ 54 }
    ensures { IfSome result (CutRoot (n * 2 ^ 54)) }
{
    let tangent = table::tangent(n >> 46);
    let fall = product(n >> 22, tangent % 0x1_0000_0000) >> 32;
    if tangent >> 32 < fall {
        return None;
    }
    from_reciprocal(n, (tangent >> 32) - fall)
}

// The root's first 32 digits: x times its reciprocal root, and one step of Newton's.
fn from_reciprocal(n: u64, reciprocal: u64) -> Option<u64>
    requires { Half n reciprocal }
    ensures { IfSome result (CutRoot (n * 2 ^ 54)) }
{
    let near = product(n >> 22, reciprocal) >> 30;
    if near >= 0x1_0000_0000 {
        return None;
    }
    let square = product(near, near);
    if n * 0x400 < square {
        return None;
    }
    let rest = n * 0x400 - square;
    if rest >= 0x8_0000_0000_0000 {
        return None;
    }
    from_half(
        n,
        reciprocal,
        near + (product(rest >> 19, reciprocal) >> 44),
    )
}

// The other 22 digits: what is left above the square of the first 32, times a sharper reciprocal root.
fn from_half(n: u64, reciprocal: u64, high: u64) -> Option<u64>
    requires { Half n reciprocal }
    ensures { IfSome result (CutRoot (n * 2 ^ 54)) }
{
    if high >= 0x1_0000_0000 {
        return None;
    }
    let curve = product(reciprocal, reciprocal) >> 30;
    if curve >= 0x1_0000_0000 {
        return None;
    }
    let fall = product(curve, n >> 22);
    if fall > 0xc000_0000_0000_0000 {
        return None;
    }
    let sharper = product(reciprocal, (0xc000_0000_0000_0000 - fall) >> 32) >> 30;
    if sharper >= 0x1_0000_0000 {
        return None;
    }
    let square = product(high, high);
    if n * 0x400 < square {
        return None;
    }
    let rest = n * 0x400 - square;
    if rest >= 0x10_0000_0000 {
        return None;
    }
    tested(n, high, rest, product(rest >> 4, sharper) >> 38)
}

// The test: s = high * 2 ^ 22 + low, or the next number, is the root.
fn tested(n: u64, high: u64, rest: u64, low: u64) -> Option<u64>
    requires { Halves n high rest low }
    ensures { IfSome result (CutRoot (n * 2 ^ 54)) }
{
    let cross = product(high, low * 2);
    if rest * 0x40_0000 < cross {
        return None;
    }
    let middle = rest * 0x40_0000 - cross;
    if middle >= 0x400_0000_0000 {
        return None;
    }
    let square = product(low, low);
    if middle * 0x40_0000 < square {
        return None;
    }
    let left = middle * 0x40_0000 - square;
    let s = high * 0x40_0000 + low;
    if left <= s * 2 {
        return Some(s);
    }
    if left <= s * 4 + 3 {
        return Some(s + 1);
    }
    None
}

fn product(x: u64, y: u64) -> u64
    requires x_bound { x < 2 ^ 32 }
    requires y_bound { y < 2 ^ 32 }
    ensures { result ≡ x * y }
{
    x * y
}

// The plain root. One digit a turn: two digits of n come down, and the root gets a 1 if its square still fits.
#[cold]
fn by_digits(n: u64) -> u64
    requires { n < 2 ^ 54 }
    ensures { CutRoot (n * 2 ^ 54) result }
{
    let mut s: u64 = 0;
    let mut rest: u64 = 0;
    let mut left = n;
    for _digit in 0..54u64 {
        rest = rest * 4 + left / 0x0010_0000_0000_0000;
        left = left % 0x0010_0000_0000_0000 * 4;
        s = s * 2;
        if s * 2 < rest {
            rest = rest - s * 2 - 1;
            s += 1;
        }
    }
    s
}
