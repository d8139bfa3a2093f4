// What a list and a register hold.

// Words of 64 bits, the lowest byte first.
#[derive(Clone, Copy)]
pub struct Words<'a> {
    words: &'a [[u8; 8]],
}

impl<'a> Words<'a> {
    pub fn new(words: &'a [[u8; 8]]) -> Words<'a> {
        Words { words }
    }

    // Word i, 0 past the end.
    pub fn at(self, i: usize) -> u64 {
        self.words
            .get(i)
            .map_or(0, |word| u64::from_le_bytes(*word))
    }

    pub fn size_at(self, i: usize) -> usize {
        self.at(i) as usize
    }
}

// A number that stands in a word.
pub trait Word: Copy {
    fn of(word: u64) -> Self;

    fn word(self) -> u64;
}

impl Word for u64 {
    fn of(word: u64) -> u64 {
        word
    }

    fn word(self) -> u64 {
        self
    }
}

// The number of a pattern.
impl Word for f64 {
    fn of(word: u64) -> f64 {
        leaf::from_bits(word)
    }

    fn word(self) -> u64 {
        leaf::to_bits(self)
    }
}

// A word's low half.
impl Word for u32 {
    fn of(word: u64) -> u32 {
        (word % 0x1_0000_0000) as u32
    }

    fn word(self) -> u64 {
        u64::from(self)
    }
}

// The number whose bits are a word's low half.
impl Word for i32 {
    fn of(word: u64) -> i32 {
        u32::of(word).cast_signed()
    }

    fn word(self) -> u64 {
        self.cast_unsigned().word()
    }
}

// The word of number i, 0 past the end.
pub fn word_at<T: Word>(numbers: &[T], i: usize) -> u64 {
    numbers.get(i).map_or(0, |number| number.word())
}

// The first `count` numbers, or all.
pub fn part<T>(numbers: &mut [T], count: usize) -> &mut [T] {
    let count = count.min(numbers.len());
    &mut numbers[..count]
}

// Takes the numbers that stand in words, as far as there is room.
pub fn load<T: Word>(numbers: &mut [T], words: &[f64]) {
    for (number, word) in numbers.iter_mut().zip(words) {
        *number = T::of(word.word());
    }
}

// Puts the numbers into words, and 0 into those that are left.
pub fn store<T: Word>(numbers: &[T], words: &mut [f64]) {
    for (i, word) in words.iter_mut().enumerate() {
        *word = f64::of(word_at(numbers, i));
    }
}
