// The writer of bytes, words and numbers.
ghost use Rattle.std.specs.Prelude.{◌≤◌, length};

// The slice that is written, and where its text ends. It stops where the slice is full.
#[derive(Drop)]
pub struct Page<'a> {
    out: &'a mut [u8],
    end: usize,
    ghost within: { end ≤ length out.now },
}

impl<'a> Page<'a> {
    ghost use Rattle.std.specs.Prelude.{[], ◌∷◌, ◌++◌, ◌<◌, ◌≡◌};
    ghost use Rattle.sheet_text.specs.Text.{tab, lf, digit, decimal, hex, field, bits_field, number_line};
    ghost use Rattle.sheet_page.specs.inner.Wrote.{Wrote};

    pub fn new(out: &'a mut [u8]) -> Page<'a>
        ensures same { result.out.ghost_name ≡ out.entry.ghost_name }
        ensures bytes { result.out.now ≡ out.old }
        ensures start { result.end ≡ 0 }
    {
        Page { out, end: 0 }
    }

    pub fn end(&self) -> usize
        ensures { result ≡ self.now.end }
    {
        self.end
    }

    fn byte(&mut self, b: u8)
        ensures { Wrote self.old (b ∷ []) self.new }
    {
        if self.end < self.out.len() {
            self.out[self.end] = b;
            self.end += 1;
        }
    }

    pub fn word(&mut self, word: &[u8])
        ensures { Wrote self.old word.now self.new }
    {
        for b in word {
            self.byte(*b);
        }
    }

    fn digit(&mut self, d: usize)
        requires { d < 16 }
        ensures { Wrote self.old (digit d ∷ []) self.new }
    {
        self.byte(if d < 10 { 48 + d } else { 87 + d } as u8);
    }

    // A decimal number with no leading zero.
    fn number(&mut self, v: usize)
        ensures { Wrote self.old (decimal v) self.new }
    {
        if v < 10 {
            self.digit(v);
        } else {
            self.number(v / 10);
            self.digit(v % 10);
        }
    }

    // The last hexadecimal digits of a pattern.
    fn hex(&mut self, digits: usize, bits: u64)
        ensures { Wrote self.old (hex digits bits) self.new }
    {
        if 0 < digits {
            self.hex(digits - 1, bits / 16);
            self.digit((bits % 16) as usize);
        }
    }

    // A number and the byte that ends it.
    pub fn field(&mut self, v: usize, stop: u8)
        ensures { Wrote self.old (field v stop) self.new }
    {
        self.number(v);
        self.byte(stop);
    }

    // Sixteen digits and the line's end.
    pub fn bits(&mut self, bits: u64)
        ensures { Wrote self.old (bits_field bits) self.new }
    {
        self.hex(16, bits);
        self.byte(b'\n');
    }

    // A word with its tab, a number, the line's end.
    pub fn number_line(&mut self, word: &[u8], v: usize)
        ensures { Wrote self.old (number_line word.now v) self.new }
    {
        self.word(word);
        self.field(v, b'\n');
    }

    // A word with its tab, two numbers parted by a tab, the line's end.
    pub fn pair_line(&mut self, word: &[u8], v: usize, w: usize)
        ensures { Wrote self.old (word.now ++ (field v tab ++ field w lf)) self.new }
    {
        self.word(word);
        self.field(v, b'\t');
        self.field(w, b'\n');
    }
}
