// One item of three rows: its steps and its solve, written out for each way in which the rows fall into blocks. A marked one goes the general way.
ghost use Rattle.std.specs.Prelude.{◌≡◌, ◌<◌, length};
ghost use Rattle.pivots.specs.Words.{paired};
ghost use Rattle.lblt_choice.specs.Choice.{choose};
ghost use Rattle.lblt.specs.Step.{stepped};
ghost use Rattle.handheld.specs.inner.Numbers.{three_of, in_nine};
ghost use Rattle.handheld.specs.inner.Triangle.{matrix_of};
ghost use Rattle.handheld.specs.inner.Steps.{blank, state_of};
ghost use Rattle.lblt_tray.specs.Tray.{ItemSolved};
ghost use Rattle.lblt_tray.specs.inner.Engine.{Item};
ghost use Rattle.lblt_tray.specs.inner.Three.{with_lower, record_by, top_of, Onward, Ends};

use crate::general;
use handheld::Triangle;
use handheld::choice::{choose_by, choose_second};
use handheld::numbers::Three;
use handheld::pivot::{one_first, one_second, two_first};
use handheld::sides::{by_one_two, by_ones, by_two_one};
use lblt_choice::Choice;
use leaf::{abs, maximum};

// ---- the item's slices

fn triangle(a: &[f64]) -> Triangle
    requires { length a.now ≡ 9 }
    ensures { result ≡ in_nine a.now }
{
    Triangle {
        a00: a[0],
        a10: a[1],
        a20: a[2],
        a11: a[4],
        a21: a[5],
        a22: a[8],
    }
}

fn put_triangle(a: &mut [f64], t: Triangle)
    requires { length a.old ≡ 9 }
    ensures { a.new ≡ with_lower a.old t }
{
    a[0] = t.a00;
    a[1] = t.a10;
    a[2] = t.a20;
    a[4] = t.a11;
    a[5] = t.a21;
    a[8] = t.a22;
}

// The pairs of the rows, the last one's index being its own; no mark; the run number.
fn put_record(
    words: &mut [u32],
    index0: u32,
    size0: u32,
    index1: u32,
    size1: u32,
    size2: u32,
    run: u32,
)
    requires { length words.old ≡ 8 }
    ensures { words.new ≡ record_by index0 size0 index1 size1 size2 run }
{
    words[0] = index0;
    words[1] = size0;
    words[2] = index1;
    words[3] = size1;
    words[4] = 2;
    words[5] = size2;
    words[6] = 0;
    words[7] = run;
}

fn side(b: &[f64]) -> Three
    requires { length b.now ≡ 3 }
    ensures { b.now ≡ three_of result }
{
    Three {
        x: b[0],
        y: b[1],
        z: b[2],
    }
}

fn put_side(b: &mut [f64], s: Three)
    requires { length b.old ≡ 3 }
    ensures { b.new ≡ three_of s }
{
    b[0] = s.x;
    b[1] = s.y;
    b[2] = s.z;
}

// ---- the ways

fn ones(
    a: &mut [f64],
    words: &mut [u32],
    b: &mut [f64],
    t: Triangle,
    index0: u32,
    index1: u32,
    run: u32,
) -> u64
    requires item { Item 3 a.old words.old b.old }
    requires index0_bound { index0 < 3 }
    requires index1_nonzero { 0 < index1 }
    requires index1_bound { index1 < 3 }
    requires ends { Ends a.old t index0 1 index1 1 1 }
    ensures { ItemSolved 3 run a.old words.old b.old result a.new words.new b.new }
{
    put_triangle(a, t);
    put_record(words, index0, 1, index1, 1, 1, run);
    let s = by_ones(t, index0, index1, side(b));
    put_side(b, s);
    0
}

fn one_two(
    a: &mut [f64],
    words: &mut [u32],
    b: &mut [f64],
    t: Triangle,
    index0: u32,
    run: u32,
) -> u64
    requires item { Item 3 a.old words.old b.old }
    requires index0_bound { index0 < 3 }
    requires ends { Ends a.old t index0 1 2 2 2 }
    ensures { ItemSolved 3 run a.old words.old b.old result a.new words.new b.new }
{
    put_triangle(a, t);
    put_record(words, index0, 1, 2, 2, 2, run);
    let s = by_one_two(t, index0, side(b));
    put_side(b, s);
    0
}

fn two_one(
    a: &mut [f64],
    words: &mut [u32],
    b: &mut [f64],
    t: Triangle,
    index0: u32,
    run: u32,
) -> u64
    requires item { Item 3 a.old words.old b.old }
    requires index0_nonzero { 0 < index0 }
    requires index0_bound { index0 < 3 }
    requires ends { Ends a.old t index0 2 index0 2 1 }
    ensures { ItemSolved 3 run a.old words.old b.old result a.new words.new b.new }
{
    put_triangle(a, t);
    put_record(words, index0, 2, index0, 2, 1, run);
    let s = by_two_one(t, index0, side(b));
    put_side(b, s);
    0
}

// ---- the steps

// Of column 0 the largest magnitude below the diagonal, its row, and the diagonal there.
#[derive(Clone, Copy)]
struct Top {
    row: usize,
    largest: f64,
    diagonal: f64,
}

fn top_of(t: Triangle, one: f64, two: f64) -> Top
    ensures { result ≡ top_of t one two }
{
    if two > one {
        return Top {
            row: 2,
            largest: two,
            diagonal: t.a22,
        };
    }
    Top {
        row: 1,
        largest: one,
        diagonal: t.a11,
    }
}

// At row 0. The handheld has the same for itself: with one for both, its two calls take half as long again.
fn choose_first(t: Triangle) -> Choice
    ensures { result ≡ choose 3 (matrix_of t) 0 }
{
    let top = top_of(t, abs(t.a10), abs(t.a20));
    let rowmax = maximum(maximum(0.0, top.largest), abs(t.a21));
    choose_by(0, abs(t.a00), top.largest, top.row, rowmax, top.diagonal)
}

// After two rows of their own.
fn after_ones(
    a: &mut [f64],
    words: &mut [u32],
    b: &mut [f64],
    t: Triangle,
    index0: u32,
    index1: u32,
    run: u32,
) -> u64
    requires item { Item 3 a.old words.old b.old }
    requires index0_bound { index0 < 3 }
    requires index1_nonzero { 0 < index1 }
    requires index1_bound { index1 < 3 }
    requires onward { Onward a.old (stepped 1 3 (state_of t (paired (paired blank 0 index0 1) 1 index1 1) 2 0)) }
    ensures { ItemSolved 3 run a.old words.old b.old result a.new words.new b.new }
{
    if maximum(abs(t.a22), 0.0) == 0.0 {
        return general::item(a, words, b, 3, run);
    }
    ones(a, words, b, t, index0, index1, run)
}

// After a block of two rows.
fn after_two(
    a: &mut [f64],
    words: &mut [u32],
    b: &mut [f64],
    t: Triangle,
    index0: u32,
    run: u32,
) -> u64
    requires item { Item 3 a.old words.old b.old }
    requires index0_nonzero { 0 < index0 }
    requires index0_bound { index0 < 3 }
    requires onward { Onward a.old (stepped 1 3 (state_of t (paired (paired blank 0 index0 2) 1 index0 2) 2 0)) }
    ensures { ItemSolved 3 run a.old words.old b.old result a.new words.new b.new }
{
    if maximum(abs(t.a22), 0.0) == 0.0 {
        return general::item(a, words, b, 3, run);
    }
    two_one(a, words, b, t, index0, run)
}

// After a row of its own.
fn after_one(
    a: &mut [f64],
    words: &mut [u32],
    b: &mut [f64],
    t: Triangle,
    index0: u32,
    run: u32,
) -> u64
    requires item { Item 3 a.old words.old b.old }
    requires index0_bound { index0 < 3 }
    requires onward { Onward a.old (stepped 2 3 (state_of t (paired blank 0 index0 1) 1 0)) }
    ensures { ItemSolved 3 run a.old words.old b.old result a.new words.new b.new }
{
    match choose_second(t) {
        Choice::ZeroColumn => general::item(a, words, b, 3, run),
        Choice::One(p) => { after_ones(a, words, b, one_second(t, p), index0, p as u32, run) }
        Choice::Two(_) => one_two(a, words, b, t, index0, run),
    }
}

// The number of the solve's answer comes back.
pub fn item(a: &mut [f64], words: &mut [u32], b: &mut [f64], run: u32) -> u64
    requires { Item 3 a.old words.old b.old }
    ensures { ItemSolved 3 run a.old words.old b.old result a.new words.new b.new }
{
    let t = triangle(a);
    match choose_first(t) {
        Choice::ZeroColumn => general::item(a, words, b, 3, run),
        Choice::One(p) => after_one(a, words, b, one_first(t, p), p as u32, run),
        Choice::Two(p) => after_two(a, words, b, two_first(t, p), p as u32, run),
    }
}
