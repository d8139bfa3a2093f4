// What a replay prints.
use std::fmt;

// Cases begun, calls made, and words that differ.
#[derive(Clone, Copy, Default)]
pub struct Tally {
    pub cases: u64,
    pub calls: u64,
    pub differing: u64,
}

impl Tally {
    pub fn one_case(&mut self) {
        self.cases = self.cases.wrapping_add(1);
    }

    pub fn one_call(&mut self) {
        self.calls = self.calls.wrapping_add(1);
    }

    pub fn one_differing(&mut self) {
        self.differing = self.differing.wrapping_add(1);
    }
}

impl fmt::Display for Tally {
    fn fmt<W: fmt::Write>(&self, f: &mut fmt::Formatter<W>) -> fmt::Result {
        let Tally {
            cases,
            calls,
            differing,
        } = *self;
        write!(f, "{cases} cases, {calls} calls, {differing} differ")
    }
}

// What a word is, by the number of its instruction, call, register, place, first word or order.
#[derive(Clone, Copy)]
pub enum Subject {
    Instruction(u64),
    Answer(u64),
    Value(u64),
    Length(u64),
    Word(u64),
    Digest(u64),
    Sweep(u64),
    Places(u64),
}

impl fmt::Display for Subject {
    fn fmt<W: fmt::Write>(&self, f: &mut fmt::Formatter<W>) -> fmt::Result {
        match *self {
            Subject::Instruction(number) => write!(f, "instruction {number}"),
            Subject::Answer(call) => write!(f, "answer of call {call}"),
            Subject::Value(call) => write!(f, "value of call {call}"),
            Subject::Length(register) => write!(f, "length of register {register}"),
            Subject::Word(i) => write!(f, "word {i}"),
            Subject::Digest(register) => write!(f, "digest of register {register}"),
            Subject::Sweep(first) => write!(f, "sweep {first}"),
            Subject::Places(order) => write!(f, "places at order {order}"),
        }
    }
}
