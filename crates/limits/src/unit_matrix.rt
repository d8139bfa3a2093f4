// The code that the teaching call answers for a whole unit matrix.
ghost use Rattle.std.specs.Prelude.{◌<◌};

use crate::calls;

// The numbers are zeros, as many as the order's square.
pub fn code(a: &mut [f64], order: usize) -> u64
    requires { 0 < order }
{
    for (j, column) in a.chunks_mut(order).enumerate() {
        if let Some(diagonal) = column.get_mut(j) {
            *diagonal = 1.0;
        }
    }
    calls::code(teaching::cholesky(a, order, order))
}
