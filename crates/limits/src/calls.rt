// The calls, each on slices for order 1, and for up to 1,024 columns.
use crate::sizes::{
    COLUMNS, EARLIER_ORDER, Limit, ORDER, ROOM, Sizes, TEACHING_ORDER, TEACHING_ROOM, TRAY_COUNT,
    TRAY_ORDER,
};
use answer::Refusal;
use std::fmt;

#[derive(Clone, Copy, Debug, PartialEq, Eq)]
pub enum Call {
    LbltFactor,
    LbltSolve,
    LbltSolveBench,
    LbltTray,
    LbltDeterminant,
    LbltD,
    LbltLPermuted,
    PivotsFromLapack,
    PivotsToLapack,
    CholeskyFactor,
    CholeskyExtend,
    CholeskyFactorFloored,
    CholeskyExtendFloored,
    CholeskySolve,
    CholeskyL,
    CholeskyUnpack,
    CholeskyDeterminant,
    CholeskyTeaching,
    UduFactor,
    FirstTwin,
    FirstTwinSince,
    PackedLbltFactor,
    PackedLbltSolve,
    PackedLbltDeterminant,
    PackedCholeskyFactor,
    PackedCholeskyExtend,
    PackedCholeskySolve,
    PackedFirstTwin,
}

pub const CALLS: [Call; 28] = [
    Call::LbltFactor,
    Call::LbltSolve,
    Call::LbltSolveBench,
    Call::LbltTray,
    Call::LbltDeterminant,
    Call::LbltD,
    Call::LbltLPermuted,
    Call::PivotsFromLapack,
    Call::PivotsToLapack,
    Call::CholeskyFactor,
    Call::CholeskyExtend,
    Call::CholeskyFactorFloored,
    Call::CholeskyExtendFloored,
    Call::CholeskySolve,
    Call::CholeskyL,
    Call::CholeskyUnpack,
    Call::CholeskyDeterminant,
    Call::CholeskyTeaching,
    Call::UduFactor,
    Call::FirstTwin,
    Call::FirstTwinSince,
    Call::PackedLbltFactor,
    Call::PackedLbltSolve,
    Call::PackedLbltDeterminant,
    Call::PackedCholeskyFactor,
    Call::PackedCholeskyExtend,
    Call::PackedCholeskySolve,
    Call::PackedFirstTwin,
];

// The name in C.
impl fmt::Display for Call {
    fn fmt<W: fmt::Write>(&self, f: &mut fmt::Formatter<W>) -> fmt::Result {
        f.write_str(match self {
            Call::LbltFactor => "lblt_factor",
            Call::LbltSolve => "lblt_solve",
            Call::LbltSolveBench => "lblt_solve_bench",
            Call::LbltTray => "lblt_tray",
            Call::LbltDeterminant => "lblt_determinant",
            Call::LbltD => "lblt_d",
            Call::LbltLPermuted => "lblt_l_permuted",
            Call::PivotsFromLapack => "pivots_from_lapack",
            Call::PivotsToLapack => "pivots_to_lapack",
            Call::CholeskyFactor => "cholesky_factor",
            Call::CholeskyExtend => "cholesky_extend",
            Call::CholeskyFactorFloored => "cholesky_factor_floored",
            Call::CholeskyExtendFloored => "cholesky_extend_floored",
            Call::CholeskySolve => "cholesky_solve",
            Call::CholeskyL => "cholesky_l",
            Call::CholeskyUnpack => "cholesky_unpack",
            Call::CholeskyDeterminant => "cholesky_determinant",
            Call::CholeskyTeaching => "cholesky_teaching",
            Call::UduFactor => "udu_factor",
            Call::FirstTwin => "first_twin",
            Call::FirstTwinSince => "first_twin_since",
            Call::PackedLbltFactor => "packed_lblt_factor",
            Call::PackedLbltSolve => "packed_lblt_solve",
            Call::PackedLbltDeterminant => "packed_lblt_determinant",
            Call::PackedCholeskyFactor => "packed_cholesky_factor",
            Call::PackedCholeskyExtend => "packed_cholesky_extend",
            Call::PackedCholeskySolve => "packed_cholesky_solve",
            Call::PackedFirstTwin => "packed_first_twin",
        })
    }
}

impl Call {
    // The limits of the sizes that it takes.
    pub fn limits(self) -> &'static [Limit] {
        match self {
            Call::LbltFactor
            | Call::LbltDeterminant
            | Call::LbltD
            | Call::LbltLPermuted
            | Call::PivotsFromLapack
            | Call::PivotsToLapack
            | Call::UduFactor
            | Call::PackedLbltFactor
            | Call::PackedLbltDeterminant
            | Call::PackedCholeskyFactor
            | Call::PackedFirstTwin => &[ORDER],
            Call::LbltSolve
            | Call::LbltSolveBench
            | Call::PackedLbltSolve
            | Call::PackedCholeskySolve => &[ORDER, COLUMNS],
            Call::LbltTray => &[TRAY_ORDER, TRAY_COUNT],
            Call::CholeskyFactor
            | Call::CholeskyFactorFloored
            | Call::CholeskyL
            | Call::CholeskyUnpack
            | Call::CholeskyDeterminant
            | Call::FirstTwin => &[ROOM, ORDER],
            Call::CholeskyExtend | Call::CholeskyExtendFloored | Call::FirstTwinSince => {
                &[ROOM, ORDER, EARLIER_ORDER]
            }
            Call::CholeskySolve => &[ROOM, ORDER, COLUMNS],
            Call::CholeskyTeaching => &[TEACHING_ROOM, TEACHING_ORDER],
            Call::PackedCholeskyExtend => &[ORDER, EARLIER_ORDER],
        }
    }

    // The code that the call answers, by those of these sizes that it takes.
    pub fn code(self, sizes: Sizes) -> u64 {
        let Sizes {
            room,
            earlier,
            order: n,
            columns,
        } = sizes;
        let mut a = [2.0];
        let mut b = [1.0; 1024];
        let mut u = [0.0];
        let mut d = [0.0];
        // A sound record of order 1, with the run number 7.
        let mut record = [0u32, 1, 0, 7];
        let benches = [5u32; 1024];
        let mut answers = [0u64];
        let mut list = [1i32];
        match self {
            Call::LbltFactor => code(lblt::factor(&mut a, &mut record, n, 7)),
            Call::LbltSolve => code(lblt_solve::solve_mut(&a, &record, &mut b, n, columns, 7)),
            Call::LbltSolveBench => code(lblt_bench::solve_bench(
                &a, &record, &mut b, &benches, n, columns, 5, 7,
            )),
            Call::LbltTray => code(lblt_tray::tray(
                &mut a,
                &mut record,
                &mut b,
                &benches,
                &mut answers,
                n,
                columns,
            )),
            Call::LbltDeterminant => code(lblt_read::determinant(&a, &record, n, 7)),
            Call::LbltD => code(lblt_read::d(&a, &record, &mut u, n, 7)),
            Call::LbltLPermuted => code(lblt_read::l_permuted(&a, &record, &mut u, n, 7)),
            Call::PivotsFromLapack => code(pivots_lapack::from_lapack(&list, 0, &mut record, n, 7)),
            Call::PivotsToLapack => code(pivots_lapack::to_lapack(&record, &mut list, n)),
            Call::CholeskyFactor => code(cholesky::factor(&mut a, room, n)),
            Call::CholeskyExtend => code(cholesky::extend(&mut a, room, earlier, n)),
            Call::CholeskyFactorFloored => code(
                cholesky::factor_floored(&mut a, room, n, 1.0).answer,
            ),
            Call::CholeskyExtendFloored => {
                code(cholesky::extend_floored(&mut a, room, earlier, n, 1.0).answer)
            }
            Call::CholeskySolve => code(cholesky::solve_mut(&a, &mut b, room, n, columns)),
            Call::CholeskyL => code(cholesky::l(&a, &mut u, room, n)),
            Call::CholeskyUnpack => code(cholesky::unpack(&mut a, room, n)),
            Call::CholeskyDeterminant => code(cholesky::determinant(&a, room, n)),
            Call::CholeskyTeaching => code(teaching::cholesky(&mut a, room, n)),
            Call::UduFactor => code(udu::factor(&a, &mut u, &mut d, n)),
            Call::FirstTwin => code(twins::first_twin(&a, room, n)),
            Call::FirstTwinSince => code(twins::first_twin_since(&a, room, earlier, n)),
            Call::PackedLbltFactor => code(packed::lblt_factor(&mut a, &mut record, n, 7)),
            Call::PackedLbltSolve => {
                code(packed::lblt_solve(&a, &record, &mut b, n, columns, 7))
            }
            Call::PackedLbltDeterminant => code(packed::lblt_determinant(&a, &record, n, 7)),
            Call::PackedCholeskyFactor => code(packed::cholesky_factor(&mut a, n)),
            Call::PackedCholeskyExtend => {
                code(packed::cholesky_extend(&u, &a, &mut d, earlier, n))
            }
            Call::PackedCholeskySolve => code(packed::cholesky_solve(&a, &mut b, n, columns)),
            Call::PackedFirstTwin => code(packed::first_twin(&a, n)),
        }
    }
}

// The code of an answer, 0 where the call is done.
pub fn code<T: Copy>(outcome: Result<T, Refusal>) -> u64 {
    match outcome {
        Ok(_) => 0,
        Err(refusal) => u64::from(refusal.code()),
    }
}
