// Replays a stored list of answers: oracle/README.md has the format.
#![tactic(auto)]

mod calls;
mod digest;
mod handheld_calls;
mod instructions;
mod machine;
mod outcome;
mod registers;
mod repeat;
mod sweep;
mod tally;
mod words;

use machine::Machine;
use registers::{Register, Registers};

// The most blocks of a list.
const BLOCKS: usize = 65536;

// Replays the list that is standard input. Prints each word that differs, and how much ran.
pub fn run<R: Print>(rt: &R) {
    let mut a = [0.0; 4096];
    let mut b = [0.0; 4096];
    let mut c = [0.0; 4096];
    let mut r = [0u32; 4096];
    let registers = Registers {
        a: Register::new(&mut a),
        b: Register::new(&mut b),
        c: Register::new(&mut c),
        r: Register::new(&mut r),
    };
    let mut machine = Machine::new(rt, registers);
    let mut block = io::large_buffer();
    for _ in 0..BLOCKS {
        // `Read` of std fills a slice or fails, and the last block is shorter.
        let n = io::read_full(0, &mut block);
        if n == 0 {
            break;
        }
        machine.block(&block[..n]);
    }
    machine.finish();
}
