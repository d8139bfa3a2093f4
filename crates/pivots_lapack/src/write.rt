// From a record to a list.
ghost use Rattle.std.specs.Prelude.{◌≡◌, ◌<◌, length};
ghost use Rattle.pivots.specs.Words.{index_at, size_word};
ghost use Rattle.pivots.specs.Rule.{Accepted};
ghost use Rattle.pivots_lapack.specs.Numbers.{number_at};
ghost use Rattle.pivots_lapack.specs.Lists.{list_of};

use crate::number;

fn number_of(words: &[u32], row: usize) -> i32
    requires row_in_bounds { size_word row < length words.now }
    requires row_bound { index_at words.now row < 1024 }
    ensures { result ≡ number_at words.now row }
{
    let index = pivots::index(words, row);
    if pivots::size(words, row) == 1 {
        return number::one(index);
    }
    number::two(index)
}

// Writes the whole list.
pub fn put_numbers(words: &[u32], list: &mut [i32], n: usize)
    requires accepted { Accepted n words.now }
    requires list_len { length list.old ≡ n }
    ensures { list.new ≡ list_of n words.now }
{
    for row in 0..n {
        list[row] = number_of(words, row);
    }
}
