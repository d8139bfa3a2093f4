// A number of a list, and what it stands for.
ghost use Rattle.std.specs.Prelude.{◌≡◌, ◌+◌, ◌<◌, ◌≤◌, pos, neg_ℤ};
ghost use Rattle.pivots_lapack.specs.Numbers.{index_meant, size_meant, mark_meant};

#[derive(Clone, Copy)]
pub struct Pair {
    pub index: u32,
    pub size: u32,
}

impl From<i32> for Pair {
    ghost from_gives = { λ number pair. (pair.index ≡ index_meant number) × (pair.size ≡ size_meant number) };

    fn from(number: i32) -> Pair {
        if 0 < number {
            Pair {
                index: (number - 1) as u32,
                size: 1,
            }
        } else if number < 0 {
            Pair {
                index: (-1 - number) as u32,
                size: 2,
            }
        } else {
            Pair { index: 0, size: 0 }
        }
    }
}

pub fn mark(info: i32, n: usize) -> u32
    requires { n ≤ 1024 }
    ensures { result ≡ mark_meant n info }
{
    u32::try_from(info).unwrap_or(n as u32 + 1)
}

// p for a row that is counted from 0.
pub fn one(index: usize) -> i32
    requires { index < 1024 }
    ensures { result ≡ pos (index + 1) }
{
    (index + 1) as i32
}

// −p for a row that is counted from 0.
pub fn two(index: usize) -> i32
    requires { index < 1024 }
    ensures { result ≡ neg_ℤ (pos (index + 1)) }
{
    -one(index)
}
