// 1,024 is accepted and 1,025 refused, in every order, room and column count of every call and in the count of a tray; of the orders of a tray and of the teaching call 64 and 65. An accepted
// order or room is seen by the next refusal, code 3 or for a pivot list 4, since nothing of such a length is lent here, but for the teaching call;
// oracle/longrun has whole runs at order 1,024.
#![tactic(auto)]

mod calls;
mod sizes;
mod unit_matrix;

use calls::{CALLS, Call};
use std::fmt;

fn main(rt: HostRuntime) {
    for call in CALLS {
        for limit in call.limits() {
            let accepted = call.code(limit.accepted());
            let refused = call.code(limit.refused());
            line(&rt, call, limit.size, limit.most, accepted, refused);
        }
        if call == Call::CholeskyTeaching {
            let accepted = unit_matrix::code(&mut [0.0; 4096], 64);
            let refused = unit_matrix::code(&mut [0.0; 4225], 65);
            line(&rt, call, "unit matrix of order", 64, accepted, refused);
        }
    }
}

// A line that cannot be written is left out.
fn line<R: Print, D: fmt::Display + Drop>(
    rt: &R,
    call: Call,
    what: D,
    most: usize,
    accepted: u64,
    refused: u64,
) {
    let more = most.wrapping_add(1);
    let _ = println!(rt; "{call}, {what}: {most} gives {accepted}, {more} gives {refused}");
}
