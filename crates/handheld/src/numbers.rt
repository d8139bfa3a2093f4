// The numbers of columns that are passed by value. `last` is row 2: where it comes as data, that row is read by itself, and not with row 1 at once.
ghost use Rattle.std.specs.Prelude.{◌≡◌};
ghost use Rattle.handheld.specs.Shapes.{numbers_of};
ghost use Rattle.handheld.specs.inner.Numbers.{three_of, nine_of, lower_of};

use crate::{Column3, Triangle};

#[derive(Clone, Copy)]
pub struct Three {
    pub x: f64,
    pub y: f64,
    pub z: f64,
}

// Column by column.
#[derive(Clone, Copy)]
pub struct Nine {
    pub first: Three,
    pub second: Three,
    pub third: Three,
}

pub fn of_column(column: Column3, last: usize) -> Three
    requires { last ≡ 2 }
    ensures { column.row ≡ three_of result }
{
    Three {
        x: column.row[0],
        y: column.row[1],
        z: column.row[last],
    }
}

pub fn of_columns(matrix: [Column3; 3], last: usize) -> Nine
    requires { last ≡ 2 }
    ensures { numbers_of matrix ≡ nine_of result }
{
    let first = of_column(matrix[0], last);
    let second = of_column(matrix[1], last);
    let third = of_column(matrix[2], last);
    Nine {
        first,
        second,
        third,
    }
}

pub fn lower(n: Nine) -> Triangle
    ensures { result ≡ lower_of n }
{
    let first = n.first;
    let second = n.second;
    let third = n.third;
    Triangle {
        a00: first.x,
        a10: first.y,
        a20: first.z,
        a11: second.y,
        a21: second.z,
        a22: third.z,
    }
}
