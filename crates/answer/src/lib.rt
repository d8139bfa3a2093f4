// What a call answers: done, or one of the numbered refusals.
#![tactic(auto)]

ghost use Rattle.std.specs.Prelude.{◌≡◌};
ghost use Rattle.answer.specs.Number.{refusal_code, refusal_place, refusal_number, code_of, place_of, number_of};

#[derive(Clone, Copy, Debug, PartialEq, Eq)]
pub enum Refusal {
    // An order, room, column or item count above 1,024, an order above 64 for the teaching engine or a tray, or UDU of order 0.
    OutOfRange,
    // Cholesky: an order above the room, or an earlier order above the order.
    OrderAboveRoom,
    // The first matrix has the wrong length.
    MatrixLength,
    // Another slice has the wrong length.
    SliceLength,
    // The pivot record breaks its rule: the row, or the order for the mark.
    BadRecord(u32),
    // Solve: a zero mark stands, at this row of the factor.
    ZeroMark(u32),
    // Cholesky: the diagonal at this column is zero, of either sign.
    CholeskyZero(u32),
    // UDU: the diagonal at this column is zero.
    ZeroDiagonal(u32),
    // Cholesky: the diagonal at this column is below zero, −infinity included.
    CholeskyBelowZero(u32),
    // Cholesky: the diagonal at this column is NaN.
    CholeskyNan(u32),
    // A LAPACK pivot list stands for no sound record: the first row of its first broken block, or the order for INFO.
    BadList(u32),
    // The pivot record is of another run.
    OtherRun,
    // The sheet's first wrong line, from 1.
    BadLine(u32),
}

// Of a call that leaves its result in the lent slices.
pub type Answer = Result<(), Refusal>;

impl Refusal {
    pub fn code(self) -> u8
        ensures { result ≡ refusal_code self }
    {
        match self {
            Refusal::OutOfRange => 1,
            Refusal::OrderAboveRoom => 2,
            Refusal::MatrixLength => 3,
            Refusal::SliceLength => 4,
            Refusal::BadRecord(_) => 5,
            Refusal::ZeroMark(_) => 6,
            Refusal::CholeskyZero(_) => 7,
            Refusal::ZeroDiagonal(_) => 8,
            Refusal::CholeskyBelowZero(_) => 10,
            Refusal::CholeskyNan(_) => 11,
            Refusal::BadList(_) => 12,
            Refusal::OtherRun => 13,
            Refusal::BadLine(_) => 20,
        }
    }

    // 0 where the refusal names no row, column or line.
    pub fn place(self) -> u32
        ensures { result ≡ refusal_place self }
    {
        match self {
            Refusal::OutOfRange => 0,
            Refusal::OrderAboveRoom => 0,
            Refusal::MatrixLength => 0,
            Refusal::SliceLength => 0,
            Refusal::BadRecord(row) => row,
            Refusal::ZeroMark(row) => row,
            Refusal::CholeskyZero(column) => column,
            Refusal::ZeroDiagonal(column) => column,
            Refusal::CholeskyBelowZero(column) => column,
            Refusal::CholeskyNan(column) => column,
            Refusal::BadList(row) => row,
            Refusal::OtherRun => 0,
            Refusal::BadLine(line) => line,
        }
    }

    // The one number of a refusal, code·4,096 + place.
    pub fn number(self) -> u64
        ensures { result ≡ refusal_number self }
    {
        (self.code() as u64) * 4096 + (self.place() as u64)
    }
}

// The code of an answer: 0 where all is done.
pub fn code(answer: Answer) -> u8
    ensures { result ≡ code_of answer }
{
    match answer {
        Ok(()) => 0,
        Err(refusal) => refusal.code(),
    }
}

// Its place: 0 where all is done.
pub fn place(answer: Answer) -> u32
    ensures { result ≡ place_of answer }
{
    match answer {
        Ok(()) => 0,
        Err(refusal) => refusal.place(),
    }
}

// The one number of an answer: 0 where all is done.
pub fn number(answer: Answer) -> u64
    ensures { result ≡ number_of answer }
{
    match answer {
        Ok(()) => 0,
        Err(refusal) => refusal.number(),
    }
}
