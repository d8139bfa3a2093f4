// Finds rows of a symmetric matrix that came twice.
#![tactic(auto)]

ghost use Rattle.std.specs.Prelude.{◌≡◌, ◌+◌, ◌<◌, ◌≤◌, length, to_bits, MatchOption};
ghost use Rattle.std.specs.Float.{binary64};
ghost use Rattle.matrix.specs.Grid.{load};
ghost use Rattle.matrix.specs.Layouts.{lower, Laid};
ghost use Rattle.twins.specs.Twins.{symmetric};
ghost use Rattle.twins.specs.First.{NoneBefore, First, FirstTwinOn, FirstTwinSince, FirstTwin};
ghost use Rattle.twins.specs.inner.Search.{Told, FirstBefore};
ghost use Rattle.twins.specs.Number.{twin_number};
ghost use Rattle.twins.specs.inner.Fingerprints.{mixed, Fingerprinted, Brought, Cleared, OthersPassed};

use answer::Refusal;
use matrix::Layout;

// Rows first < second are twins.
#[derive(Clone, Copy, Debug, PartialEq, Eq)]
pub struct Pair {
    pub first: u32,
    pub second: u32,
}

// What a search answers: the first pair, none where no row has a twin, or a refusal.
pub type Found = Result<Option<Pair>, Refusal>;

// The one number of what was found: 0 for none, a refusal's own, and a pair's above all of those.
pub fn number(found: Found) -> u64
    ensures { result ≡ twin_number found }
{
    match found {
        Ok(None) => 0,
        Ok(Some(pair)) => (4096 + (pair.second as u64)) * 4096 + (pair.first as u64),
        Err(refusal) => refusal.number(),
    }
}

fn lower_bits(y: Layout, a: &[f64], i: usize, j: usize) -> u64
    requires laid { Laid y a.now }
    requires j_le_i { j ≤ i }
    requires i_lt_order { i < y.order }
    ensures { result ≡ to_bits binary64 (load (lower y) a.now i j) }
{
    leaf::to_bits(matrix::get(y, a, i, j))
}

#[tactic(auto, unfolding(crate::specs::Twins::symmetric))]
fn entry_bits(y: Layout, a: &[f64], i: usize, j: usize) -> u64
    requires laid { Laid y a.now }
    requires i_lt_order { i < y.order }
    requires j_lt_order { j < y.order }
    ensures { result ≡ to_bits binary64 (symmetric (load (lower y) a.now) i j) }
{
    if j <= i {
        return lower_bits(y, a, i, j);
    }
    lower_bits(y, a, j, i)
}

#[tactic(auto, using(crate::proofs::Fingerprints::turned_left), unfolding(crate::specs::inner::Fingerprints::mixed))]
fn mix(fingerprint: u64, bits: u64) -> u64
    ensures { result ≡ mixed fingerprint bits }
{
    let thrice = fingerprint
        .wrapping_add(fingerprint)
        .wrapping_add(fingerprint);
    thrice.rotate_left(23).wrapping_add(bits)
}

// Column c brings entry (i, c) to row i at its place c and to row c at its place i. The rows before c are whole.
fn bring_column(y: Layout, a: &[f64], fingerprints: &mut [u64], c: usize)
    requires laid { Laid y a.now }
    requires order_in_bounds { y.order ≤ length fingerprints.old }
    requires c_lt_order { c < y.order }
    requires brought { Brought y.order (load (lower y) a.now) c fingerprints.old }
    ensures { Brought y.order (load (lower y) a.now) (c + 1) fingerprints.new }
{
    let n = y.order;
    let mut own = mix(fingerprints[c], lower_bits(y, a, c, c));
    for i in c + 1..n {
        let bits = lower_bits(y, a, i, c);
        fingerprints[i] = mix(fingerprints[i], bits);
        own = mix(own, bits);
    }
    fingerprints[c] = own;
}

fn fingerprint_rows(y: Layout, a: &[f64], fingerprints: &mut [u64])
    requires laid { Laid y a.now }
    requires order_in_bounds { y.order ≤ length fingerprints.old }
    requires cleared { Cleared y.order fingerprints.old }
    ensures { Fingerprinted y.order (load (lower y) a.now) fingerprints.new }
{
    for c in 0..y.order {
        bring_column(y, a, fingerprints, c);
    }
}

fn same_rows(y: Layout, a: &[f64], p: usize, q: usize) -> bool
    requires laid { Laid y a.now }
    requires p_lt_order { p < y.order }
    requires q_lt_order { q < y.order }
    ensures { Told y.order (load (lower y) a.now) p q result }
{
    (0..y.order).all(|k| entry_bits(y, a, q, k) == entry_bits(y, a, p, k))
}

// The fingerprints are compared first, so that rows are read again only where they may be twins.
#[tactic(auto, using(crate::proofs::Fingerprints::fingerprints_differ))]
fn twins(y: Layout, a: &[f64], fingerprints: &[u64], p: usize, q: usize) -> bool
    requires laid { Laid y a.now }
    requires order_in_bounds { y.order ≤ length fingerprints.now }
    requires fingerprinted { Fingerprinted y.order (load (lower y) a.now) fingerprints.now }
    requires p_lt_order { (p < y.order) × (q < y.order) }
    ensures { Told y.order (load (lower y) a.now) p q result }
{
    if fingerprints[p] != fingerprints[q] {
        return false;
    }
    same_rows(y, a, p, q)
}

// Passes rows that have other fingerprints than row q, four at a time, which is faster than one by one.
fn pass_fours(fingerprints: &[u64], q: usize) -> usize
    requires { q < length fingerprints.now }
    ensures { OthersPassed fingerprints.now q result }
{
    let fingerprint = fingerprints[q];
    let fours = q / 4;
    for t in 0..fours {
        let p = 4 * t;
        if fingerprints[p..p + 4].contains(&fingerprint) {
            return p;
        }
    }
    4 * fours
}

// The first row before row q that is its twin.
fn first_before(y: Layout, a: &[f64], fingerprints: &[u64], q: usize) -> Option<usize>
    requires laid { Laid y a.now }
    requires order_in_bounds { y.order ≤ length fingerprints.now }
    requires fingerprinted { Fingerprinted y.order (load (lower y) a.now) fingerprints.now }
    requires q_lt_order { q < y.order }
    ensures { MatchOption result (NoneBefore y.order (load (lower y) a.now) q q) (FirstBefore y.order (load (lower y) a.now) q) }
{
    let passed = pass_fours(fingerprints, q);
    for p in passed..q {
        if twins(y, a, fingerprints, p, q) {
            return Some(p);
        }
    }
    None
}

fn first_pair(y: Layout, a: &[f64], fingerprints: &mut [u64], earlier: usize) -> Option<Pair>
    requires laid { Laid y a.now }
    requires order_in_bounds { y.order ≤ length fingerprints.old }
    requires cleared { Cleared y.order fingerprints.old }
    requires earlier_le_order { earlier ≤ y.order }
    ensures { First y.order (load (lower y) a.now) earlier result }
{
    fingerprint_rows(y, a, fingerprints);
    for q in earlier..y.order {
        if let Some(p) = first_before(y, a, fingerprints, q) {
            return Some(Pair {
                first: p as u32,
                second: q as u32,
            });
        }
    }
    None
}

// With room for N rows.
fn first_among<const N: usize>(y: Layout, a: &[f64], earlier: usize) -> Option<Pair>
    requires laid { Laid y a.now }
    requires order_bound { y.order ≤ N }
    requires n_bound { N ≤ 1024 }
    requires earlier_le_order { earlier ≤ y.order }
    ensures { First y.order (load (lower y) a.now) earlier result }
{
    let mut fingerprints = [0u64; N];
    first_pair(y, a, &mut fingerprints, earlier)
}

// The first pair of twin rows, the second of them at or after `earlier`, of the symmetric matrix whose lower part stands in a layout.
pub fn first_twin_on(y: Layout, a: &[f64], earlier: usize) -> Found
    ensures { FirstTwinOn y earlier a.now result }
{
    y.check(earlier, a.len())?;
    if y.order <= 32 {
        return Ok(first_among::<32>(y, a, earlier));
    }
    Ok(first_among::<1024>(y, a, earlier))
}

// The same of the first n rows of a room.
pub fn first_twin_since(a: &[f64], room: usize, earlier: usize, n: usize) -> Found
    ensures { FirstTwinSince a.now room earlier n result }
{
    first_twin_on(Layout::in_room(n, room), a, earlier)
}

// The first pair of twin rows of all n.
pub fn first_twin(a: &[f64], room: usize, n: usize) -> Found
    ensures { FirstTwin a.now room n result }
{
    first_twin_since(a, room, 0, n)
}
