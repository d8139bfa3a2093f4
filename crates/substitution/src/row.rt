// A row of some columns of right-hand sides, side by side: one number of each.

ghost use Rattle.std.specs.Prelude.{◌≡◌, ℕ, ◌*◌, ◌<◌, length, Float, set};
ghost use Rattle.matrix.specs.Rounded.{◌⊖◌, ◌⊗◌, ◌⊘◌};
ghost use Rattle.matrix.specs.Columns.{at, column};
ghost use Rattle.substitution.specs.inner.Numbers.{single, of_four};

// The columns have n numbers each and stand one after the other.
pub trait Row: Copy {
    // how many columns
    ghost COLUMNS: { ℕ };

    const COLUMNS: usize;

    // the number of column j
    ghost number: { Self → ℕ → Float };

    // Row i.
    fn of(b: &[f64], n: usize, i: usize) -> Self
        requires b_len { length b.now ≡ n * COLUMNS }
        requires i_lt_n { i < n }
        ensures { (j : ℕ) → j < COLUMNS → number result j ≡ at (column n j b.now) i };

    // The row becomes row i.
    fn put(self, b: &mut [f64], n: usize, i: usize)
        requires b_len { length b.old ≡ n * COLUMNS }
        requires i_lt_n { i < n }
        ensures { (j : ℕ) → j < COLUMNS → column n j b.new ≡ set (column n j b.old) i (number self j) };

    // self − c·z
    fn less(self, c: f64, z: Self) -> Self
        ensures { (j : ℕ) → j < COLUMNS → number result j ≡ number self j ⊖ c ⊗ number z j };

    // self / d
    fn over(self, d: f64) -> Self
        ensures { (j : ℕ) → j < COLUMNS → number result j ≡ number self j ⊘ d };

    // self·c − z·e
    fn cross(self, c: f64, z: Self, e: f64) -> Self
        ensures { (j : ℕ) → j < COLUMNS → number result j ≡ number self j ⊗ c ⊖ number z j ⊗ e };
}

// A row of one column.
impl Row for f64 {
    ghost COLUMNS = { 1 };

    const COLUMNS: usize = 1;

    ghost number = { single };

    fn of(b: &[f64], _n: usize, i: usize) -> f64 {
        b[i]
    }

    fn put(self, b: &mut [f64], _n: usize, i: usize) {
        b[i] = self;
    }

    fn less(self, c: f64, z: f64) -> f64 {
        self - c * z
    }

    fn over(self, d: f64) -> f64 {
        self / d
    }

    fn cross(self, c: f64, z: f64, e: f64) -> f64 {
        self * c - z * e
    }
}

// A row of four columns.
#[derive(Clone, Copy)]
pub struct Four {
    first: f64,
    second: f64,
    third: f64,
    fourth: f64,
}

impl Row for Four {
    ghost COLUMNS = { 4 };

    const COLUMNS: usize = 4;

    ghost number = { of_four };

    fn of(b: &[f64], n: usize, i: usize) -> Four {
        Four {
            first: b[i],
            second: b[i + n],
            third: b[i + 2 * n],
            fourth: b[i + 3 * n],
        }
    }

    fn put(self, b: &mut [f64], n: usize, i: usize) {
        b[i] = self.first;
        b[i + n] = self.second;
        b[i + 2 * n] = self.third;
        b[i + 3 * n] = self.fourth;
    }

    fn less(self, c: f64, z: Four) -> Four {
        Four {
            first: self.first - c * z.first,
            second: self.second - c * z.second,
            third: self.third - c * z.third,
            fourth: self.fourth - c * z.fourth,
        }
    }

    fn over(self, d: f64) -> Four {
        Four {
            first: self.first / d,
            second: self.second / d,
            third: self.third / d,
            fourth: self.fourth / d,
        }
    }

    fn cross(self, c: f64, z: Four, e: f64) -> Four {
        Four {
            first: self.first * c - z.first * e,
            second: self.second * c - z.second * e,
            third: self.third * c - z.third * e,
            fourth: self.fourth * c - z.fourth * e,
        }
    }
}
