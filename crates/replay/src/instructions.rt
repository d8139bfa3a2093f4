// The instructions of a list.
ghost use Rattle.std.specs.Prelude.{length};
ghost use Rattle.std.specs.Iterator.{at_most};

use crate::words::Words;

#[derive(Clone, Copy, Debug, PartialEq, Eq)]
pub enum Operation {
    Nothing,
    Case,
    Set,
    Fill,
    Random,
    Shift,
    Call,
    Same,
    Digest,
    Sweep,
    Repeat,
    Places,
}

// A number that names no operation.
#[derive(Clone, Copy, Debug, PartialEq, Eq)]
pub struct UnknownOperation(pub u64);

impl TryFrom<u64> for Operation {
    type Error = UnknownOperation;

    fn try_from(number: u64) -> Result<Operation, UnknownOperation> {
        match number {
            0 => Ok(Operation::Nothing),
            1 => Ok(Operation::Case),
            2 => Ok(Operation::Set),
            3 => Ok(Operation::Fill),
            4 => Ok(Operation::Random),
            5 => Ok(Operation::Shift),
            6 => Ok(Operation::Call),
            7 => Ok(Operation::Same),
            8 => Ok(Operation::Digest),
            9 => Ok(Operation::Sweep),
            10 => Ok(Operation::Repeat),
            11 => Ok(Operation::Places),
            _ => Err(UnknownOperation(number)),
        }
    }
}

impl Operation {
    // How many words stand after the first of an instruction.
    fn payload(self, count: usize) -> usize {
        match self {
            Operation::Nothing | Operation::Case => 0,
            Operation::Set | Operation::Same => count,
            Operation::Sweep => count.wrapping_mul(2),
            Operation::Shift => 2,
            Operation::Call => 5,
            Operation::Repeat => 10,
            Operation::Places => 7,
            Operation::Fill | Operation::Random | Operation::Digest => 1,
        }
    }
}

#[derive(Clone, Copy)]
pub struct Instruction<'a> {
    pub operation: Result<Operation, UnknownOperation>,
    // The number of its register, call or library.
    pub which: u64,
    // No more than the words of a block.
    pub count: usize,
    pub payload: Words<'a>,
}

// Those that stand in the words of a block.
#[derive(Drop)]
pub struct Instructions<'a> {
    words: &'a [[u8; 8]],
}

impl<'a> Instructions<'a> {
    pub fn of(block: &'a [u8]) -> Instructions<'a> {
        let (words, _) = block.as_chunks::<8>();
        Instructions { words }
    }
}

impl<'a> Iterator for Instructions<'a> {
    type Item = Instruction<'a>;

    ghost remaining = { λ s. at_most (length s.words.now) };

    fn next(&mut self) -> Option<Instruction<'a>> {
        let (first, rest) = self.words.split_first()?;
        let first = u64::from_le_bytes(*first);
        let operation = Operation::try_from(first % 256);
        let count = ((first / 65536) as usize).min(8192);
        let payload = match operation {
            Ok(operation) => operation.payload(count),
            Err(_) => 0,
        };
        let (payload, rest) = rest.split_at(payload.min(rest.len()));
        self.words = rest;
        Some(Instruction {
            operation,
            which: first / 256 % 256,
            count,
            payload: Words::new(payload),
        })
    }
}
