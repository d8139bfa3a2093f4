// The lines of the page.
ghost use Rattle.std.specs.Prelude.{◌≡◌, ◌*◌, ◌≤◌, length};
ghost use Rattle.std.specs.Float.{binary64};
ghost use Rattle.std.specs.Float.Ieee.{to_bits};
ghost use Rattle.pivots.specs.Words.{words_of};
ghost use Rattle.sheet_text.specs.Text.{entry_line};
ghost use Rattle.sheet_text.specs.Place.{places};
ghost use Rattle.sheet_text.specs.Sheet.{entry_lines, join};
ghost use Rattle.sheet_page.specs.Page.{pivot_line, pivot_lines, zero_line, det_line, matrix_in, lower_bits, refusal_of};
ghost use Rattle.sheet_page.specs.inner.Wrote.{Wrote};

use crate::page::Page;
use answer::Answer;
use sheet_text::{Place, Places};

impl<'a> Page<'a> {
    fn pivot(&mut self, row: usize, index: usize, size: usize)
        ensures { Wrote self.old (pivot_line row index size) self.new }
    {
        self.word(b"pivot\t");
        self.field(row, b'\t');
        self.field(index, b'\t');
        self.field(size, b'\n');
    }

    pub fn pivots(&mut self, words: &[u32], n: usize)
        requires { words_of n ≤ length words.now }
        ensures { Wrote self.old (join (pivot_lines words.now 0 n)) self.new }
    {
        for row in 0..n {
            self.pivot(row, pivots::index(words, row), pivots::size(words, row));
        }
    }

    pub fn zero(&mut self, mark: usize)
        ensures { Wrote self.old (zero_line mark) self.new }
    {
        if mark == 0 {
            self.word(b"zero\tnone\n");
        } else {
            self.number_line(b"zero\t", mark - 1);
        }
    }

    fn entry(&mut self, p: Place, x: f64)
        ensures { Wrote self.old (entry_line p.row p.column (to_bits binary64 x)) self.new }
    {
        self.word(b"entry\t");
        self.field(p.row, b'\t');
        self.field(p.column, b'\t');
        self.bits(leaf::to_bits(x));
    }

    // Answers how many lines were written.
    pub fn entries(&mut self, n: usize, a: &[f64]) -> usize
        requires small { n ≤ 64 }
        requires whole { n * n ≤ length a.now }
        ensures wrote { Wrote self.old (join (entry_lines (places n) (lower_bits n (matrix_in n a.now)))) self.new }
        ensures count { result ≡ length (places n) }
    {
        let mut count = 0;
        for p in Places::new(n) {
            self.entry(p, a[p.row + p.column * n]);
            count += 1;
        }
        count
    }

    pub fn det(&mut self, det: f64)
        ensures { Wrote self.old (det_line det) self.new }
    {
        self.word(b"det\t");
        self.bits(leaf::to_bits(det));
    }

    pub fn refusal(&mut self, r: Answer)
        ensures { Wrote self.old (refusal_of r) self.new }
    {
        let code = usize::from(answer::code(r));
        self.pair_line(b"refused\t", code, answer::place(r) as usize);
    }
}
