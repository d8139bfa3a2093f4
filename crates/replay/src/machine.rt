// Runs the instructions of a list.
use crate::calls::{Call, Sizes};
use crate::digest::{Digest, step};
use crate::instructions::{Instruction, Instructions, Operation, UnknownOperation};
use crate::outcome::Outcome;
use crate::registers::{Name, Registers};
use crate::sweep::Library;
use crate::tally::{Subject, Tally};
use crate::words::{Word, Words};

#[derive(Drop)]
pub struct Machine<'a, R> {
    rt: &'a R,
    pub registers: Registers<'a>,
    pub tally: Tally,
}

impl<'a, R: Print> Machine<'a, R> {
    pub fn new(rt: &'a R, registers: Registers<'a>) -> Machine<'a, R> {
        Machine {
            rt,
            registers,
            tally: Tally::default(),
        }
    }

    // Prints how much ran. Here and below, a line that cannot be written is left out.
    pub fn finish(&self) {
        let rt = self.rt;
        let tally = self.tally;
        let _ = println!(rt; "{tally}");
    }

    // Prints and counts a word that is not the list's.
    pub fn hold(&mut self, subject: Subject, found: u64, wanted: u64) {
        if found == wanted {
            return;
        }
        let rt = self.rt;
        let case = self.tally.cases;
        let _ = println!(rt; "case {case}, {subject}: {found:016x}, not {wanted:016x}");
        self.tally.one_differing();
    }

    // Runs the instructions of a block.
    pub fn block(&mut self, block: &[u8]) {
        for instruction in Instructions::of(block) {
            self.instruction(instruction);
        }
    }

    fn instruction(&mut self, instruction: Instruction<'_>) {
        let Instruction {
            operation,
            which,
            count,
            payload,
        } = instruction;
        match operation {
            Err(UnknownOperation(number)) => self.hold(Subject::Instruction(number), number, 0),
            Ok(Operation::Nothing) => {}
            Ok(Operation::Case) => self.tally.one_case(),
            Ok(Operation::Set) => self
                .registers
                .load(Name::from(which), count, |i| payload.at(i)),
            Ok(Operation::Fill) => {
                let first = payload.at(0);
                self.registers
                    .load(Name::from(which), count, |i| first.wrapping_add(i as u64));
            }
            Ok(Operation::Random) => {
                let mut chance = payload.at(0);
                self.registers.load(Name::from(which), count, |_| {
                    chance = step(chance);
                    between_halves(chance).word()
                });
            }
            Ok(Operation::Shift) => {
                let by = f64::of(payload.at(1));
                self.registers.a.shift(count, payload.size_at(0), by);
            }
            Ok(Operation::Call) => self.call(which, payload),
            Ok(Operation::Same) => self.same(which, count, payload),
            Ok(Operation::Digest) => self.digest(which, payload),
            Ok(Operation::Sweep) => self.sweep(Library::from(which), count.min(64), payload),
            Ok(Operation::Repeat) => self.repeat(count, payload),
            Ok(Operation::Places) => self.places(count, payload),
        }
    }

    fn call(&mut self, number: u64, payload: Words<'_>) {
        let sizes = Sizes {
            n: payload.size_at(0),
            x: payload.size_at(1),
            y: payload.size_at(2),
        };
        let found = match Call::try_from(number) {
            Ok(call) => self.registers.call(call, sizes),
            Err(_) => Outcome::no_call(),
        };
        self.tally.one_call();
        self.hold(Subject::Answer(number), found.answer, payload.at(3));
        self.hold(Subject::Value(number), found.value, payload.at(4));
    }

    // The register's length, then its words.
    fn same(&mut self, register: u64, count: usize, payload: Words<'_>) {
        let name = Name::from(register);
        let held = self.registers.held(name);
        self.hold(Subject::Length(register), held as u64, count as u64);
        for i in 0..count {
            let found = self.registers.word(name, i);
            self.hold(Subject::Word(i as u64), found, payload.at(i));
        }
    }

    fn digest(&mut self, register: u64, payload: Words<'_>) {
        let mut digest = Digest::new();
        self.registers.add_to(Name::from(register), &mut digest);
        self.hold(Subject::Digest(register), digest.word(), payload.at(0));
    }
}

// A number from -1/2 to 1/2.
fn between_halves(chance: u64) -> f64 {
    f64::of((chance >> 12) | 0x3ff0_0000_0000_0000) - 1.5
}
