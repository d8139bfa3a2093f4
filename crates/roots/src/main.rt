// Stored roots, replayed: prints how many there are, and how many differ in a bit.
#![tactic(auto)]

mod stored;

use stored::ROOTS;

fn main(rt: HostRuntime) {
    let count = ROOTS.len();
    let wrong = ROOTS.iter().filter(|pair| differs(**pair)).count();
    // A line that cannot be written is left out.
    let _ = println!(rt; "{count} roots, {wrong} differ");
}

// Whether the root's pattern is another. A NaN's is 7ff8000000000000.
fn differs(pair: (u64, u64)) -> bool {
    let (argument, root) = pair;
    leaf::to_bits(leaf::root(leaf::from_bits(argument))) != root
}
