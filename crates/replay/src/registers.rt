// The four registers.
use crate::digest::Digest;
use crate::words::{Word, word_at};

// Fixed memory, of whose numbers the first `held` are in use. A list may ask for more than there is room for: those past the end read as 0.
#[derive(Drop)]
pub struct Register<'a, T> {
    numbers: &'a mut [T],
    held: usize,
}

impl<'a, T: Word> Register<'a, T> {
    pub fn new(numbers: &'a mut [T]) -> Register<'a, T> {
        Register { numbers, held: 0 }
    }

    pub fn held(&self) -> usize {
        self.held
    }

    // Those in use.
    pub fn used(&mut self) -> &mut [T] {
        let held = self.held.min(self.numbers.len());
        &mut self.numbers[..held]
    }

    // Word i, 0 past the end.
    pub fn word(&self, i: usize) -> u64 {
        word_at(self.numbers, i)
    }

    // Holds `count` words.
    pub fn load<F: FnMut(usize) -> u64>(&mut self, count: usize, mut word: F)
        requires { F.IsAlwaysCallable word }
    {
        for (i, number) in self.numbers.iter_mut().enumerate().take(count) {
            *number = T::of(word(i));
        }
        self.held = count;
    }

    // Holds these words.
    pub fn hold(&mut self, words: &[u64]) {
        for (number, word) in self.numbers.iter_mut().zip(words) {
            *number = T::of(*word);
        }
        self.held = words.len();
    }

    // How many are held, and they, go into a digest.
    fn add_to(&self, digest: &mut Digest) {
        digest.add(self.held as u64);
        for i in 0..self.held {
            digest.add(self.word(i));
        }
    }
}

impl Register<'_, f64> {
    // Adds a number to entry i + i·stride for i below `count`.
    pub fn shift(&mut self, count: usize, stride: usize, by: f64) {
        let step = stride.wrapping_add(1);
        for i in 0..count {
            if let Some(number) = self.numbers.get_mut(i.wrapping_mul(step)) {
                *number += by;
            }
        }
    }
}

#[derive(Clone, Copy, Debug, PartialEq, Eq)]
pub enum Name {
    A,
    B,
    C,
    R,
}

// Every number from 3 on is R's.
impl From<u64> for Name {
    fn from(number: u64) -> Name {
        match number {
            0 => Name::A,
            1 => Name::B,
            2 => Name::C,
            _ => Name::R,
        }
    }
}

#[derive(Drop)]
pub struct Registers<'a> {
    pub a: Register<'a, f64>,
    pub b: Register<'a, f64>,
    pub c: Register<'a, f64>,
    pub r: Register<'a, u32>,
}

impl Registers<'_> {
    pub fn held(&self, name: Name) -> usize {
        match name {
            Name::A => self.a.held(),
            Name::B => self.b.held(),
            Name::C => self.c.held(),
            Name::R => self.r.held(),
        }
    }

    pub fn word(&self, name: Name, i: usize) -> u64 {
        match name {
            Name::A => self.a.word(i),
            Name::B => self.b.word(i),
            Name::C => self.c.word(i),
            Name::R => self.r.word(i),
        }
    }

    pub fn load<F: FnMut(usize) -> u64>(&mut self, name: Name, count: usize, word: F)
        requires { F.IsAlwaysCallable word }
    {
        match name {
            Name::A => self.a.load(count, word),
            Name::B => self.b.load(count, word),
            Name::C => self.c.load(count, word),
            Name::R => self.r.load(count, word),
        }
    }

    pub fn add_to(&self, name: Name, digest: &mut Digest) {
        match name {
            Name::A => self.a.add_to(digest),
            Name::B => self.b.add_to(digest),
            Name::C => self.c.add_to(digest),
            Name::R => self.r.add_to(digest),
        }
    }
}
