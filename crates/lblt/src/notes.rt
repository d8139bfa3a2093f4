// What a step notes: the pairs of its rows, and the first mark.
ghost use Rattle.std.specs.Prelude.{◌≡◌, ◌+◌, ◌<◌, length};
ghost use Rattle.pivots.specs.Words.{size_word, paired};
ghost use Rattle.lblt.specs.Step.{first_mark};

use pivots::put_pair;

pub fn one(words: &mut [u32], k: usize, p: usize)
    requires k_in_bounds { size_word k < length words.old }
    requires p_bound { p < 1024 }
    ensures { words.new ≡ paired words.old k p 1 }
{
    put_pair(words, k, p as u32, 1);
}

pub fn two(words: &mut [u32], k: usize, p: usize)
    requires k_in_bounds { size_word (k + 1) < length words.old }
    requires p_bound { p < 1024 }
    ensures { words.new ≡ paired (paired words.old k p 2) (k + 1) p 2 }
{
    put_pair(words, k, p as u32, 2);
    put_pair(words, k + 1, p as u32, 2);
}

// The mark is set if unset.
pub fn first_mark(mark: u32, k: usize) -> u32
    requires { k < 1024 }
    ensures { result ≡ first_mark mark k }
{
    if mark == 0 {
        return k as u32 + 1;
    }
    mark
}
