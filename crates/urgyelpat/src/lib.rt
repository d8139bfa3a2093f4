// The calls through the C convention: a slice is a pointer and then a length, an answer is one number, code·4,096 + place, and what comes back beside it
// stands with it in a struct: C has no Result.
#![tactic(auto)]

ghost use Rattle.std.specs.Prelude.{◌≡◌};
ghost use Rattle.urgyelpat.specs.Passed.{determined_of, listed_of, floored_of};
ghost use Rattle.urgyelpat.specs.Calls.{LbltFactor, LbltSolve, LbltSolveBench, LbltTray, LbltDeterminant, LbltD, LbltLPermuted};
ghost use Rattle.urgyelpat.specs.Calls.{HandheldFactor, HandheldSolve, PivotsFromLapack, PivotsToLapack};
ghost use Rattle.urgyelpat.specs.Calls.{CholeskyExtend, CholeskyExtendFloored, CholeskyTeaching, CholeskySolve, CholeskyL, CholeskyUnpack, CholeskyDeterminant};
ghost use Rattle.urgyelpat.specs.Calls.{UduFactor, FirstTwinPair};
ghost use Rattle.urgyelpat.specs.Calls.{PackedLbltFactor, PackedLbltSolve, PackedLbltDeterminant, PackedCholeskyFactor, PackedCholeskyExtend, PackedCholeskySolve, PackedFirstTwin};

use answer::Refusal;
use handheld::{Column3, Pivots3};
use pivots_lapack::Stamp;

// A determinant, +0 where refused, and the number of its answer.
#[repr(C)]
#[derive(Clone, Copy)]
pub struct Determined {
    pub answer: u64,
    pub value: f64,
}

fn numbered(determinant: Result<f64, Refusal>) -> Determined
    ensures { result ≡ determined_of determinant }
{
    match determinant {
        Ok(value) => Determined { answer: 0, value },
        Err(refusal) => Determined {
            answer: refusal.number(),
            value: 0.0,
        },
    }
}

// INFO and the run number of a list, 0 where refused, and the number of its answer.
#[repr(C)]
#[derive(Clone, Copy)]
pub struct Listed {
    pub answer: u64,
    pub info: i32,
    pub run: u32,
}

fn list_numbered(list: Result<Stamp, Refusal>) -> Listed
    ensures { result ≡ listed_of list }
{
    match list {
        Ok(stamp) => Listed {
            answer: 0,
            info: stamp.info,
            run: stamp.run,
        },
        Err(refusal) => Listed {
            answer: refusal.number(),
            info: 0,
            run: 0,
        },
    }
}

// How many columns used a floor, and the number of the call's answer.
#[repr(C)]
#[derive(Clone, Copy)]
pub struct Floored {
    pub answer: u64,
    pub used: u64,
}

fn floored_numbered(floored: cholesky::Floored) -> Floored
    ensures { result ≡ floored_of floored }
{
    Floored {
        answer: answer::number(floored.answer),
        used: floored.used as u64,
    }
}

#[unsafe(no_mangle)]
pub extern "C" fn urgyelpat_lblt_factor(
    a: &mut [f64],
    record: &mut [u32],
    n: usize,
    run: u32,
) -> u64
    ensures { LbltFactor n run a.old «record».old result a.new «record».new }
{
    answer::number(lblt::factor(a, record, n, run))
}

#[unsafe(no_mangle)]
pub extern "C" fn urgyelpat_lblt_solve(
    a: &[f64],
    record: &[u32],
    b: &mut [f64],
    n: usize,
    columns: usize,
    run: u32,
) -> u64
    ensures { LbltSolve n columns run a.now «record».now b.old result b.new }
{
    answer::number(lblt_solve::solve_mut(a, record, b, n, columns, run))
}

// The columns of b whose number in `benches` is `bench`.
#[unsafe(no_mangle)]
pub extern "C" fn urgyelpat_lblt_solve_bench(
    a: &[f64],
    record: &[u32],
    b: &mut [f64],
    benches: &[u32],
    n: usize,
    columns: usize,
    bench: u32,
    run: u32,
) -> u64
    ensures { LbltSolveBench n columns bench run a.now «record».now b.old benches.now result b.new }
{
    answer::number(lblt_bench::solve_bench(a, record, b, benches, n, columns, bench, run))
}

// `count` systems of order n, each factored and solved; the number of each one's answer goes to `answers`.
#[unsafe(no_mangle)]
pub extern "C" fn urgyelpat_lblt_tray(
    a: &mut [f64],
    records: &mut [u32],
    b: &mut [f64],
    runs: &[u32],
    answers: &mut [u64],
    n: usize,
    count: usize,
) -> u64
    ensures { LbltTray n count a.old records.old b.old runs.now answers.old result a.new records.new b.new answers.new }
{
    answer::number(lblt_tray::tray(a, records, b, runs, answers, n, count))
}

#[unsafe(no_mangle)]
pub extern "C" fn urgyelpat_lblt_determinant(
    a: &[f64],
    record: &[u32],
    n: usize,
    run: u32,
) -> Determined
    ensures { LbltDeterminant n run a.now «record».now result }
{
    numbered(lblt_read::determinant(a, record, n, run))
}

#[unsafe(no_mangle)]
pub extern "C" fn urgyelpat_lblt_d(
    a: &[f64],
    record: &[u32],
    d: &mut [f64],
    n: usize,
    run: u32,
) -> u64
    ensures { LbltD n run a.now «record».now d.old result d.new }
{
    answer::number(lblt_read::d(a, record, d, n, run))
}

#[unsafe(no_mangle)]
pub extern "C" fn urgyelpat_lblt_l_permuted(
    a: &[f64],
    record: &[u32],
    l: &mut [f64],
    n: usize,
    run: u32,
) -> u64
    ensures { LbltLPermuted n run a.now «record».now l.old result l.new }
{
    answer::number(lblt_read::l_permuted(a, record, l, n, run))
}

// Three columns of three numbers.
#[repr(C)]
#[derive(Clone, Copy)]
pub struct Matrix3 {
    pub column: [Column3; 3],
}

// A factor of order 3, and its pivots.
#[repr(C)]
#[derive(Clone, Copy)]
pub struct Factored3 {
    pub matrix: Matrix3,
    pub pivots: Pivots3,
}

// A solution of order 3, or the side as it was where the answer is a refusal.
#[repr(C)]
#[derive(Clone, Copy)]
pub struct Solved3 {
    pub answer: u64,
    pub side: Column3,
}

// By value, of order 3; there is no run number.
#[unsafe(no_mangle)]
pub extern "C" fn urgyelpat_handheld_factor(matrix: Matrix3) -> Factored3
    ensures { HandheldFactor matrix result }
{
    let given = matrix.column;
    let factored = handheld::factor(given);
    let column = factored.matrix;
    let pivots = factored.pivots;
    Factored3 {
        matrix: Matrix3 { column },
        pivots,
    }
}

#[unsafe(no_mangle)]
pub extern "C" fn urgyelpat_handheld_solve(
    matrix: Matrix3,
    pivots: Pivots3,
    side: Column3,
) -> Solved3
    ensures { HandheldSolve matrix pivots side result }
{
    match handheld::solve(matrix.column, pivots, side) {
        Ok(solution) => Solved3 {
            answer: 0,
            side: solution,
        },
        Err(refusal) => Solved3 {
            answer: refusal.number(),
            side,
        },
    }
}

// The record that a LAPACK pivot list and INFO stand for, with a run number.
#[unsafe(no_mangle)]
pub extern "C" fn urgyelpat_pivots_from_lapack(
    list: &[i32],
    info: i32,
    record: &mut [u32],
    n: usize,
    run: u32,
) -> u64
    ensures { PivotsFromLapack n run list.now info «record».old result «record».new }
{
    answer::number(pivots_lapack::from_lapack(list, info, record, n, run))
}

// The LAPACK pivot list of a record.
#[unsafe(no_mangle)]
pub extern "C" fn urgyelpat_pivots_to_lapack(record: &[u32], list: &mut [i32], n: usize) -> Listed
    ensures { PivotsToLapack n «record».now list.old result list.new }
{
    list_numbered(pivots_lapack::to_lapack(record, list, n))
}

#[unsafe(no_mangle)]
pub extern "C" fn urgyelpat_cholesky_factor(a: &mut [f64], room: usize, n: usize) -> u64
    ensures { CholeskyExtend room 0 n a.old result a.new }
{
    answer::number(cholesky::factor(a, room, n))
}

// The first `earlier` rows are factored already.
#[unsafe(no_mangle)]
pub extern "C" fn urgyelpat_cholesky_extend(
    a: &mut [f64],
    room: usize,
    earlier: usize,
    n: usize,
) -> u64
    ensures { CholeskyExtend room earlier n a.old result a.new }
{
    answer::number(cholesky::extend(a, room, earlier, n))
}

// With a floor for the diagonal: its root stands where a diagonal fails its test and the floor does not.
#[unsafe(no_mangle)]
pub extern "C" fn urgyelpat_cholesky_factor_floored(
    a: &mut [f64],
    room: usize,
    n: usize,
    floor: f64,
) -> Floored
    ensures { CholeskyExtendFloored room 0 n floor a.old result a.new }
{
    floored_numbered(cholesky::factor_floored(a, room, n, floor))
}

#[unsafe(no_mangle)]
pub extern "C" fn urgyelpat_cholesky_extend_floored(
    a: &mut [f64],
    room: usize,
    earlier: usize,
    n: usize,
    floor: f64,
) -> Floored
    ensures { CholeskyExtendFloored room earlier n floor a.old result a.new }
{
    floored_numbered(cholesky::extend_floored(a, room, earlier, n, floor))
}

// By the teaching engine, for an order up to 64.
#[unsafe(no_mangle)]
pub extern "C" fn urgyelpat_cholesky_teaching(a: &mut [f64], room: usize, n: usize) -> u64
    ensures { CholeskyTeaching room n a.old result a.new }
{
    answer::number(teaching::cholesky(a, room, n))
}

// n numbers of b a column.
#[unsafe(no_mangle)]
pub extern "C" fn urgyelpat_cholesky_solve(
    a: &[f64],
    b: &mut [f64],
    room: usize,
    n: usize,
    columns: usize,
) -> u64
    ensures { CholeskySolve room n columns a.now b.old result b.new }
{
    answer::number(cholesky::solve_mut(a, b, room, n, columns))
}

#[unsafe(no_mangle)]
pub extern "C" fn urgyelpat_cholesky_l(a: &[f64], l: &mut [f64], room: usize, n: usize) -> u64
    ensures { CholeskyL room n a.now l.old result l.new }
{
    answer::number(cholesky::l(a, l, room, n))
}

#[unsafe(no_mangle)]
pub extern "C" fn urgyelpat_cholesky_unpack(a: &mut [f64], room: usize, n: usize) -> u64
    ensures { CholeskyUnpack room n a.old result a.new }
{
    answer::number(cholesky::unpack(a, room, n))
}

#[unsafe(no_mangle)]
pub extern "C" fn urgyelpat_cholesky_determinant(a: &[f64], room: usize, n: usize) -> Determined
    ensures { CholeskyDeterminant room n a.now result }
{
    numbered(cholesky::determinant(a, room, n))
}

#[unsafe(no_mangle)]
pub extern "C" fn urgyelpat_udu_factor(p: &[f64], u: &mut [f64], d: &mut [f64], n: usize) -> u64
    ensures { UduFactor n p.now u.old d.old result u.new d.new }
{
    answer::number(udu::factor(p, u, d, n))
}

// 0 for no twins, (4,096 + q)·4,096 + p for the rows p < q, or a refusal.
#[unsafe(no_mangle)]
pub extern "C" fn urgyelpat_first_twin(a: &[f64], room: usize, n: usize) -> u64
    ensures { FirstTwinPair room 0 n a.now result }
{
    twins::number(twins::first_twin(a, room, n))
}

// The same of the pairs whose second row is at or after `earlier`.
#[unsafe(no_mangle)]
pub extern "C" fn urgyelpat_first_twin_since(
    a: &[f64],
    room: usize,
    earlier: usize,
    n: usize,
) -> u64
    ensures { FirstTwinPair room earlier n a.now result }
{
    twins::number(twins::first_twin_since(a, room, earlier, n))
}

// A packed lower triangle of order n: n·(n + 1)/2 numbers, entry (i, j) at i + j·(2n − j − 1)/2.
#[unsafe(no_mangle)]
pub extern "C" fn urgyelpat_packed_lblt_factor(
    a: &mut [f64],
    record: &mut [u32],
    n: usize,
    run: u32,
) -> u64
    ensures { PackedLbltFactor n run a.old «record».old result a.new «record».new }
{
    answer::number(packed::lblt_factor(a, record, n, run))
}

#[unsafe(no_mangle)]
pub extern "C" fn urgyelpat_packed_lblt_solve(
    a: &[f64],
    record: &[u32],
    b: &mut [f64],
    n: usize,
    columns: usize,
    run: u32,
) -> u64
    ensures { PackedLbltSolve n columns run a.now «record».now b.old result b.new }
{
    answer::number(packed::lblt_solve(a, record, b, n, columns, run))
}

#[unsafe(no_mangle)]
pub extern "C" fn urgyelpat_packed_lblt_determinant(
    a: &[f64],
    record: &[u32],
    n: usize,
    run: u32,
) -> Determined
    ensures { PackedLbltDeterminant n run a.now «record».now result }
{
    numbered(packed::lblt_determinant(a, record, n, run))
}

#[unsafe(no_mangle)]
pub extern "C" fn urgyelpat_packed_cholesky_factor(a: &mut [f64], n: usize) -> u64
    ensures { PackedCholeskyFactor n a.old result a.new }
{
    answer::number(packed::cholesky_factor(a, n))
}

// `old` is the factor of the first `earlier` rows, `rows` the others, i + 1 numbers for row i.
#[unsafe(no_mangle)]
pub extern "C" fn urgyelpat_packed_cholesky_extend(
    old: &[f64],
    rows: &[f64],
    fresh: &mut [f64],
    earlier: usize,
    n: usize,
) -> u64
    ensures { PackedCholeskyExtend earlier n old.now rows.now fresh.old result fresh.new }
{
    answer::number(packed::cholesky_extend(old, rows, fresh, earlier, n))
}

#[unsafe(no_mangle)]
pub extern "C" fn urgyelpat_packed_cholesky_solve(
    a: &[f64],
    b: &mut [f64],
    n: usize,
    columns: usize,
) -> u64
    ensures { PackedCholeskySolve n columns a.now b.old result b.new }
{
    answer::number(packed::cholesky_solve(a, b, n, columns))
}

#[unsafe(no_mangle)]
pub extern "C" fn urgyelpat_packed_first_twin(a: &[f64], n: usize) -> u64
    ensures { PackedFirstTwin n a.now result }
{
    twins::number(packed::first_twin(a, n))
}
