// What a call answers, as a list has it.
use crate::words::Word;
use answer::{Answer, Refusal};
use cholesky::Floored;
use pivots_lapack::Stamp;
use twins::Found;

// The answer, and the word of the value or 0.
#[derive(Clone, Copy)]
pub struct Outcome {
    pub answer: u64,
    pub value: u64,
}

impl Outcome {
    // An answer that no call gives.
    pub fn no_call() -> Outcome {
        Outcome {
            answer: 0xffff_ffff_ffff_ffff,
            value: 0,
        }
    }

    // Done, and the word of the value.
    pub fn done(value: u64) -> Outcome {
        Outcome { answer: 0, value }
    }
}

impl From<Refusal> for Outcome {
    fn from(refusal: Refusal) -> Outcome {
        Outcome {
            answer: refusal.number(),
            value: 0,
        }
    }
}

impl From<Answer> for Outcome {
    fn from(answer: Answer) -> Outcome {
        match answer {
            Ok(()) => Outcome::done(0),
            Err(refusal) => refusal.into(),
        }
    }
}

impl From<Result<f64, Refusal>> for Outcome {
    fn from(valued: Result<f64, Refusal>) -> Outcome {
        match valued {
            Ok(value) => Outcome::done(value.word()),
            Err(refusal) => refusal.into(),
        }
    }
}

// The value is how many columns used the floor.
impl From<Floored> for Outcome {
    fn from(floored: Floored) -> Outcome {
        Outcome {
            answer: answer::number(floored.answer),
            value: floored.used as u64,
        }
    }
}

impl From<Found> for Outcome {
    fn from(found: Found) -> Outcome {
        Outcome {
            answer: twins::number(found),
            value: 0,
        }
    }
}

// The value is INFO by its bits, and the run number in the high half.
impl From<Result<Stamp, Refusal>> for Outcome {
    fn from(listed: Result<Stamp, Refusal>) -> Outcome {
        match listed {
            Ok(stamp) => Outcome::done(stamp.info.word() | (stamp.run.word() << 32)),
            Err(refusal) => refusal.into(),
        }
    }
}
