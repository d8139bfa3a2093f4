// Absolute value, maximum and square root of an f64, by its bits.
#![tactic(auto)]

ghost use Rattle.std.specs.Prelude.{◌≡◌, ◌+◌, ◌*◌, ◌%◌, ◌^◌};
ghost use Rattle.std.specs.Float.{binary64};
ghost use Rattle.std.specs.Float.Ieee.{of_bits, to_bits};
ghost use Rattle.leaf.specs.Abs.{abs_of};
ghost use Rattle.leaf.specs.Maximum.{maximum_of};
ghost use Rattle.leaf.specs.Root.{root_of, rounded};
ghost use Rattle.leaf.specs.inner.Scaled.{Normal, Subnormal, Scaled};

mod table;
mod whole;

// The float of any pattern: each NaN pattern gives a NaN.
pub fn from_bits(bits: u64) -> f64
    ensures { result ≡ of_bits binary64 bits }
{
    if bits % 0x8000_0000_0000_0000 > 0x7ff0_0000_0000_0000 {
        return 0.0 / 0.0;
    }
    f64::from_bits(bits)
}

// The pattern of any float: each NaN gives 7ff8000000000000.
pub fn to_bits(x: f64) -> u64
    ensures { result ≡ to_bits binary64 x }
{
    if x != x {
        return 0x7ff8_0000_0000_0000;
    }
    f64::to_bits(x)
}

pub fn abs(x: f64) -> f64
    ensures { result ≡ abs_of x }
{
    if x != x {
        return x;
    }
    f64::from_bits(f64::to_bits(x) & 0x7fff_ffff_ffff_ffff)
}

// A NaN is dropped if the other number is none.
pub fn maximum(a: f64, b: f64) -> f64
    ensures { result ≡ maximum_of a b }
{
    if a != a {
        return b;
    }
    if a < b {
        return b;
    }
    a
}

// The f64 nearest the exact root: specs/Nearest.antt says so by midpoints, and `root_is_root` of proofs/Nearest.antt that this is it.
pub fn root(x: f64) -> f64
    ensures { result ≡ root_of x }
{
    if x != x {
        return x;
    }
    let bits = f64::to_bits(x);
    if bits < 0x0010_0000_0000_0000 {
        if bits == 0 {
            return x;
        }
        return subnormal_root(bits);
    }
    if bits < 0x7ff0_0000_0000_0000 {
        return normal_root(bits);
    }
    if bits == 0x7ff0_0000_0000_0000 {
        return x;
    }
    if bits == 0x8000_0000_0000_0000 {
        return x;
    }
    0.0 / 0.0
}

// The root by a pattern's two fields.
fn normal_root(bits: u64) -> f64
    requires { Normal bits }
    ensures { result ≡ root_of (of_bits binary64 bits) }
{
    scaled_root(
        bits % 0x0010_0000_0000_0000 + 0x0010_0000_0000_0000,
        bits / 0x0010_0000_0000_0000 + 1021,
    )
}

// A significand without a leading digit is shifted up until it has one.
fn subnormal_root(bits: u64) -> f64
    requires { Subnormal bits }
    ensures { result ≡ root_of (of_bits binary64 bits) }
{
    let zeros = u64::leading_zeros(bits) as u64 - 11;
    scaled_root(bits << zeros, 1022 - zeros)
}

// The root of m * 2 ^ (at - 2096), by its first 54 digits. The last one rounds.
fn scaled_root(m: u64, at: u64) -> f64
    requires { Scaled m at }
    ensures { result ≡ rounded (m * 2 ^ (at + 52)) }
{
    let s = whole::root(evened(m, at));
    f64::from_bits(at / 2 * 0x0010_0000_0000_0000 + (s + 1) / 2)
}

// The significand, doubled where the exponent is odd.
fn evened(m: u64, at: u64) -> u64
    requires { Scaled m at }
    ensures { result ≡ m * 2 ^ (at % 2) }
{
    if at % 2 == 0 {
        return m;
    }
    m * 2
}
