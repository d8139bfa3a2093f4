// SWEEP: all triples of special words at order 2, a digest for each first word.
use crate::calls::{Call, Sizes};
use crate::digest::Digest;
use crate::machine::Machine;
use crate::registers::{Name, Registers};
use crate::tally::Subject;
use crate::words::Words;

// What stands at first where a call only writes.
const FILLED: u64 = 0x5a5a_0000_0000_0000;

// What a sweep calls.
#[derive(Clone, Copy, Debug, PartialEq, Eq)]
pub enum Library {
    Lblt,
    Cholesky,
    Udu,
    Twins,
    CholeskySolve,
}

// Every number but these four is the solve's.
impl From<u64> for Library {
    fn from(number: u64) -> Library {
        match number {
            1 => Library::Lblt,
            2 => Library::Cholesky,
            3 => Library::Udu,
            4 => Library::Twins,
            _ => Library::CholeskySolve,
        }
    }
}

impl Library {
    // In the order of a sweep.
    fn calls(self) -> &'static [Call] {
        match self {
            Library::Lblt => &[
                Call::LbltFactor,
                Call::LbltSolve,
                Call::LbltDeterminant,
                Call::LbltD,
                Call::LbltLPermuted,
            ],
            Library::Cholesky => &[
                Call::CholeskyExtend,
                Call::CholeskyFactor,
                Call::CholeskyDeterminant,
                Call::CholeskyL,
                Call::CholeskyUnpack,
            ],
            Library::Udu => &[Call::UduFactor],
            Library::Twins => &[Call::FirstTwinSince, Call::FirstTwin],
            Library::CholeskySolve => &[Call::CholeskySolve],
        }
    }
}

impl<R: Print> Machine<'_, R> {
    // The payload has `count` special words, and then their digests.
    pub fn sweep(&mut self, library: Library, count: usize, payload: Words<'_>) {
        for i in 0..count {
            let mut digest = Digest::new();
            for j in 0..count {
                for k in 0..count {
                    let triple = [payload.at(i), payload.at(j), payload.at(k)];
                    self.case(library, triple, &mut digest);
                }
            }
            let wanted = payload.at(i.wrapping_add(count));
            self.hold(Subject::Sweep(i as u64), digest.word(), wanted);
        }
    }

    // The calls of a library on one triple.
    fn case(&mut self, library: Library, triple: [u64; 3], digest: &mut Digest) {
        self.tally.one_case();
        for call in library.calls() {
            self.tally.one_call();
            self.registers.swept(*call, triple, digest);
        }
    }
}

impl Registers<'_> {
    // A call at order 2: its answer, its value and what it may write go into the digest.
    fn swept(&mut self, call: Call, triple: [u64; 3], digest: &mut Digest) {
        self.prepare(call, triple);
        let found = self.call(call, sizes(call));
        digest.add(found.answer);
        digest.add(found.value);
        for name in written(call) {
            self.add_to(*name, digest);
        }
    }

    // What stands before a call.
    fn prepare(&mut self, call: Call, triple: [u64; 3]) {
        let [x, y, z] = triple;
        let filled = [FILLED, FILLED + 1, FILLED + 2, FILLED + 3];
        match call {
            Call::LbltFactor => {
                self.a.hold(&[x, y, FILLED + 2, z]);
                self.r.hold(&[9; 6]);
            }
            Call::CholeskyFactor | Call::CholeskyExtend | Call::FirstTwinSince => {
                self.a.hold(&[x, y, FILLED + 2, z]);
            }
            Call::CholeskySolve => {
                self.a.hold(&[x, y, FILLED + 2, z]);
                self.b.hold(&[x, y, z, x, y, z, x, y, z, x, y, z]);
            }
            Call::LbltSolve => self.b.hold(&[y, z]),
            Call::LbltD | Call::LbltLPermuted | Call::CholeskyL => self.b.hold(&filled),
            Call::UduFactor => {
                self.a.hold(&[x, FILLED + 1, y, z]);
                self.b.hold(&filled);
                self.c.hold(&[FILLED, FILLED + 1]);
            }
            _ => {}
        }
    }
}

// One column or a room of 2; six columns, an earlier order of 1 or the run number 1.
fn sizes(call: Call) -> Sizes {
    let (x, y) = match call {
        Call::LbltFactor
        | Call::LbltSolve
        | Call::LbltDeterminant
        | Call::LbltD
        | Call::LbltLPermuted => (1, 1),
        Call::CholeskySolve => (2, 6),
        _ => (2, 1),
    };
    Sizes { n: 2, x, y }
}

// The registers that a call may write.
fn written(call: Call) -> &'static [Name] {
    match call {
        Call::LbltFactor => &[Name::A, Name::R],
        Call::UduFactor => &[Name::B, Name::C],
        Call::CholeskyFactor | Call::CholeskyExtend | Call::CholeskyUnpack => &[Name::A],
        Call::LbltSolve
        | Call::LbltD
        | Call::LbltLPermuted
        | Call::CholeskyL
        | Call::CholeskySolve => &[Name::B],
        _ => &[],
    }
}
