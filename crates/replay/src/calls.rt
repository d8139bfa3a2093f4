// The calls, on what the registers hold.
use crate::handheld_calls;
use crate::outcome::Outcome;
use crate::registers::Registers;
use crate::words::{Word, load, part, store};

#[derive(Clone, Copy, Debug, PartialEq, Eq)]
pub enum Call {
    LbltFactor,
    LbltSolve,
    LbltDeterminant,
    LbltD,
    LbltLPermuted,
    CholeskyFactor,
    CholeskyExtend,
    CholeskyL,
    CholeskyUnpack,
    CholeskyDeterminant,
    UduFactor,
    FirstTwinSince,
    FirstTwin,
    CholeskySolve,
    LbltSolveBench,
    PivotsFromLapack,
    PivotsToLapack,
    PackedLbltFactor,
    PackedLbltSolve,
    PackedLbltDeterminant,
    PackedCholeskyFactor,
    PackedCholeskyExtend,
    PackedCholeskySolve,
    PackedFirstTwin,
    CholeskyFactorFloored,
    CholeskyExtendFloored,
    CholeskyTeaching,
    HandheldFactor,
    HandheldSolve,
    LbltTray,
}

// A number that names no call.
#[derive(Clone, Copy, Debug, PartialEq, Eq)]
pub struct UnknownCall(pub u64);

impl TryFrom<u64> for Call {
    type Error = UnknownCall;

    fn try_from(number: u64) -> Result<Call, UnknownCall> {
        match number {
            1 => Ok(Call::LbltFactor),
            2 => Ok(Call::LbltSolve),
            3 => Ok(Call::LbltDeterminant),
            4 => Ok(Call::LbltD),
            5 => Ok(Call::LbltLPermuted),
            6 => Ok(Call::CholeskyFactor),
            7 => Ok(Call::CholeskyExtend),
            8 => Ok(Call::CholeskyL),
            9 => Ok(Call::CholeskyUnpack),
            10 => Ok(Call::CholeskyDeterminant),
            11 => Ok(Call::UduFactor),
            12 => Ok(Call::FirstTwinSince),
            13 => Ok(Call::FirstTwin),
            14 => Ok(Call::CholeskySolve),
            15 => Ok(Call::LbltSolveBench),
            16 => Ok(Call::PivotsFromLapack),
            17 => Ok(Call::PivotsToLapack),
            18 => Ok(Call::PackedLbltFactor),
            19 => Ok(Call::PackedLbltSolve),
            20 => Ok(Call::PackedLbltDeterminant),
            21 => Ok(Call::PackedCholeskyFactor),
            22 => Ok(Call::PackedCholeskyExtend),
            23 => Ok(Call::PackedCholeskySolve),
            24 => Ok(Call::PackedFirstTwin),
            25 => Ok(Call::CholeskyFactorFloored),
            26 => Ok(Call::CholeskyExtendFloored),
            27 => Ok(Call::CholeskyTeaching),
            28 => Ok(Call::HandheldFactor),
            29 => Ok(Call::HandheldSolve),
            30 => Ok(Call::LbltTray),
            _ => Err(UnknownCall(number)),
        }
    }
}

// The order, and the two numbers that stand after it in a list: a room, an earlier order, columns, a count or a run number.
#[derive(Clone, Copy)]
pub struct Sizes {
    pub n: usize,
    pub x: usize,
    pub y: usize,
}

impl Registers<'_> {
    pub fn call(&mut self, call: Call, sizes: Sizes) -> Outcome {
        let Sizes { n, x, y } = sizes;
        let run = u32::of(y as u64);
        let a = self.a.used();
        let b = self.b.used();
        let c = self.c.used();
        let r = self.r.used();
        match call {
            Call::LbltFactor => lblt::factor(a, r, n, run).into(),
            Call::LbltSolve => lblt_solve::solve_mut(a, r, b, n, x, run).into(),
            Call::LbltDeterminant => lblt_read::determinant(a, r, n, run).into(),
            Call::LbltD => lblt_read::d(a, r, b, n, run).into(),
            Call::LbltLPermuted => lblt_read::l_permuted(a, r, b, n, run).into(),
            Call::CholeskyFactor => cholesky::factor(a, x, n).into(),
            Call::CholeskyExtend => cholesky::extend(a, x, y, n).into(),
            Call::CholeskyL => cholesky::l(a, b, x, n).into(),
            Call::CholeskyUnpack => cholesky::unpack(a, x, n).into(),
            Call::CholeskyDeterminant => cholesky::determinant(a, x, n).into(),
            Call::UduFactor => udu::factor(a, b, c, n).into(),
            Call::FirstTwinSince => twins::first_twin_since(a, x, y, n).into(),
            Call::FirstTwin => twins::first_twin(a, x, n).into(),
            Call::CholeskySolve => cholesky::solve_mut(a, b, x, n, y).into(),
            Call::LbltSolveBench => bench(sizes, a, b, c, r),
            Call::PivotsFromLapack => from_lapack(sizes, c, r),
            Call::PivotsToLapack => to_lapack(n, c, r),
            Call::PackedLbltFactor => packed::lblt_factor(a, r, n, run).into(),
            Call::PackedLbltSolve => packed::lblt_solve(a, r, b, n, x, run).into(),
            Call::PackedLbltDeterminant => packed::lblt_determinant(a, r, n, run).into(),
            Call::PackedCholeskyFactor => packed::cholesky_factor(a, n).into(),
            // The old factor stands in A, the rows in B and the fresh buffer in C.
            Call::PackedCholeskyExtend => packed::cholesky_extend(a, b, c, x, n).into(),
            Call::PackedCholeskySolve => packed::cholesky_solve(a, b, n, x).into(),
            Call::PackedFirstTwin => packed::first_twin(a, n).into(),
            // The floor stands in C.
            Call::CholeskyFactorFloored => cholesky::factor_floored(a, x, n, first(c)).into(),
            Call::CholeskyExtendFloored => cholesky::extend_floored(a, x, y, n, first(c)).into(),
            Call::CholeskyTeaching => teaching::cholesky(a, x, n).into(),
            Call::HandheldFactor => handheld_calls::factor(a, r),
            Call::HandheldSolve => handheld_calls::solve(a, b, r),
            Call::LbltTray => tray(sizes, a, b, c, r),
        }
    }
}

fn first(c: &[f64]) -> f64 {
    match c {
        [first, ..] => *first,
        [] => 0.0,
    }
}

// C holds the bench numbers; y is the run number and, in its high half, the bench.
fn bench(sizes: Sizes, a: &[f64], b: &mut [f64], c: &[f64], r: &[u32]) -> Outcome {
    let y = sizes.y as u64;
    let mut benches = [0u32; 64];
    load(&mut benches, c);
    let benches = part(&mut benches, c.len());
    lblt_bench::solve_bench(
        a,
        r,
        b,
        benches,
        sizes.n,
        sizes.x,
        u32::of(y >> 32),
        u32::of(y),
    )
    .into()
}

// C holds the list; x is INFO by its bits, y the run number.
fn from_lapack(sizes: Sizes, c: &[f64], r: &mut [u32]) -> Outcome {
    let mut list = [0i32; 64];
    load(&mut list, c);
    let list = part(&mut list, c.len());
    let info = i32::of(sizes.x as u64);
    pivots_lapack::from_lapack(list, info, r, sizes.n, u32::of(sizes.y as u64)).into()
}

fn to_lapack(n: usize, c: &mut [f64], r: &[u32]) -> Outcome {
    let mut list = [0i32; 64];
    load(&mut list, c);
    let listed = pivots_lapack::to_lapack(r, part(&mut list, c.len()), n);
    store(&list, c);
    listed.into()
}

// C holds the run numbers, as many as y says, and then the answers.
fn tray(sizes: Sizes, a: &mut [f64], b: &mut [f64], c: &mut [f64], r: &mut [u32]) -> Outcome {
    let mut runs = [0u32; 1025];
    load(&mut runs, part(c, sizes.y));
    let runs = part(&mut runs, sizes.y);
    let held = from(c, sizes.y);
    let mut answers = [0u64; 1025];
    load(&mut answers, held);
    let count = held.len();
    let answer = lblt_tray::tray(a, r, b, runs, part(&mut answers, count), sizes.n, sizes.x);
    store(&answers, held);
    answer.into()
}

// What stands from `at` on, or all where that is past the end.
fn from(numbers: &mut [f64], at: usize) -> &mut [f64] {
    if at <= numbers.len() {
        return &mut numbers[at..];
    }
    numbers
}
