// REPEAT and PLACES: a matrix in which a row came twice, and one entry is changed.
use crate::calls::{Call, Sizes};
use crate::digest::Digest;
use crate::machine::Machine;
use crate::tally::Subject;
use crate::words::Words;

// A matrix of order n in a room, whose entries follow from their places.
#[derive(Clone, Copy)]
struct Pattern {
    n: usize,
    room: usize,
    // An entry is this word and more.
    base: u64,
    // The bits of an entry's number that are added to the base.
    kept: u64,
    // What stands beside the entries is this word and more.
    rest: u64,
    // The bits by which a changed entry differs.
    mask: u64,
}

// Row and column q are those of p, and entry (i, j) is changed.
#[derive(Clone, Copy)]
struct Spot {
    p: usize,
    q: usize,
    i: usize,
    j: usize,
}

impl Pattern {
    // The pattern that begins a payload.
    fn of(payload: Words<'_>) -> Pattern {
        Pattern {
            n: payload.size_at(0),
            room: payload.size_at(1),
            base: payload.at(2),
            kept: payload.at(3),
            rest: payload.at(4),
            mask: payload.at(5),
        }
    }

    // Number `at` of the register. A room of 0 is all row 0 and column 0.
    fn word(self, spot: Spot, at: usize) -> u64 {
        let i = at.checked_rem(self.room).unwrap_or(0);
        let j = at.checked_div(self.room).unwrap_or(0);
        if i < j || self.n <= i {
            return self.rest.wrapping_add(at as u64);
        }
        if spot.changes(i, j) {
            return self.entry(spot, i, j) ^ self.mask;
        }
        self.entry(spot, i, j)
    }

    fn entry(self, spot: Spot, i: usize, j: usize) -> u64 {
        let number = number_of(spot.source(i), spot.source(j));
        self.base.wrapping_add(number & self.kept)
    }

    // The spot is a pair of rows, or one row, and a place of the matrix.
    fn has(self, spot: Spot) -> bool {
        spot.p <= spot.q && spot.q < self.n && spot.j <= spot.i && spot.i < self.n
    }
}

impl Spot {
    // The spot that stands after a pattern.
    fn of(payload: Words<'_>) -> Spot {
        Spot {
            p: payload.size_at(6),
            q: payload.size_at(7),
            i: payload.size_at(8),
            j: payload.size_at(9),
        }
    }

    // The digits of t to the base 8.
    fn of_digits(t: usize) -> Spot {
        Spot {
            p: t % 8,
            q: t / 8 % 8,
            i: t / 64 % 8,
            j: t / 512 % 8,
        }
    }

    fn changes(self, i: usize, j: usize) -> bool {
        i == self.i && j == self.j
    }

    // The row of which this one is a copy.
    fn source(self, row: usize) -> usize {
        if row == self.q {
            return self.p;
        }
        row
    }
}

// An entry's number, the same for (i, j) and (j, i).
fn number_of(i: usize, j: usize) -> u64 {
    ((i.max(j) as u64) << 6) ^ (i.min(j) as u64)
}

impl<R: Print> Machine<'_, R> {
    // REPEAT: register A holds a matrix.
    pub fn repeat(&mut self, count: usize, payload: Words<'_>) {
        self.lay(Pattern::of(payload), Spot::of(payload), count);
    }

    // PLACES: every row again as itself and as every later row, and each time every entry changed; one digest of all answers.
    pub fn places(&mut self, count: usize, payload: Words<'_>) {
        let pattern = Pattern::of(payload);
        let mut digest = Digest::new();
        for t in 0..4096 {
            let spot = Spot::of_digits(t);
            if pattern.has(spot) {
                self.lay(pattern, spot, count);
                self.tally.one_case();
                self.all_earlier(pattern, &mut digest);
            }
        }
        self.hold(Subject::Places(payload.at(0)), digest.word(), payload.at(6));
    }

    fn lay(&mut self, pattern: Pattern, spot: Spot, count: usize) {
        self.registers.a.load(count, |at| pattern.word(spot, at));
    }

    // The answers since every earlier order up to 8.
    fn all_earlier(&mut self, pattern: Pattern, digest: &mut Digest) {
        for earlier in 0..=pattern.n.min(8) {
            let sizes = Sizes {
                n: pattern.n,
                x: pattern.room,
                y: earlier,
            };
            let found = self.registers.call(Call::FirstTwinSince, sizes);
            self.tally.one_call();
            digest.add(found.answer);
        }
    }
}
