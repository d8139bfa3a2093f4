// The factor by the lent call, in buffers of its own.
ghost use Rattle.std.specs.Prelude.{◌≡◌};
ghost use Rattle.lblt.specs.Factor.{final_state};
ghost use Rattle.handheld.specs.declared.numbers.Nine.{Nine};
ghost use Rattle.handheld.specs.Shapes.{numbers_of};
ghost use Rattle.handheld.specs.inner.Numbers.{nine_of, lower_of};
ghost use Rattle.handheld.specs.inner.Triangle.{matrix_of};
ghost use Rattle.handheld.specs.inner.Steps.{blank, Comes};

use crate::numbers::of_columns;
use crate::steps::Stepped;
use crate::{Column3, Pivots3, Triangle};

pub fn by_lent(matrix: [Column3; 3]) -> Stepped
    ensures { (n : Nine) → numbers_of matrix ≡ nine_of n → Comes result (final_state 3 (matrix_of (lower_of n)) blank) }
{
    let n = of_columns(matrix, 2);
    let first = n.first;
    let second = n.second;
    let third = n.third;
    let mut a = [
        first.x, first.y, first.z, second.x, second.y, second.z, third.x, third.y, third.z,
    ];
    let mut words: [u32; 8] = [0; 8];
    // the sizes are those of order 3, so it is done
    let _ = lblt::factor(&mut a, &mut words, 3, 0);
    let lower = Triangle {
        a00: a[0],
        a10: a[1],
        a20: a[2],
        a11: a[4],
        a21: a[5],
        a22: a[8],
    };
    let index = [words[0], words[2], words[4]];
    let size = [words[1], words[3], words[5]];
    Stepped {
        lower,
        pivots: Pivots3 {
            index,
            size,
            mark: words[6],
        },
    }
}
