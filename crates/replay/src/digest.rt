// Digests of words, and chance.

// The next number of a source of chance, and a digest's mixing.
pub fn step(x: u64) -> u64 {
    let y = x ^ (x << 13);
    let z = y ^ (y >> 7);
    z ^ (z << 17)
}

#[derive(Clone, Copy)]
pub struct Digest(u64);

impl Digest {
    pub fn new() -> Digest {
        Digest(0x9e37_79b9_7f4a_7c15)
    }

    pub fn add(&mut self, word: u64) {
        self.0 = step(self.0 ^ word);
    }

    pub fn word(self) -> u64 {
        self.0
    }
}
