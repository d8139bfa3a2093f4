// UDU: u upper triangular and a diagonal d with p = u·d·uᵀ, column by column from the last.
#![tactic(auto)]

ghost use Rattle.udu.specs.Columns.{nothing};
ghost use Rattle.udu.specs.Promise.{UduSized, UduFactored, Holding, udu_of};
ghost use Rattle.udu.specs.inner.Contracts.{Columned};

use answer::{Answer, Refusal};

mod column;

// Fills u (n·n) and d (n) from the upper part of p (n·n).
pub fn factor(p: &[f64], u: &mut [f64], d: &mut [f64], n: usize) -> Answer
    ensures { UduFactored p.now u.old d.old n result u.new d.new }
{
    if 1024 < n {
        return Err(Refusal::OutOfRange);
    }
    if n == 0 {
        return Err(Refusal::OutOfRange);
    }
    let size = n * n;
    if p.len() != size {
        return Err(Refusal::MatrixLength);
    }
    if u.len() != size {
        return Err(Refusal::SliceLength);
    }
    if d.len() != n {
        return Err(Refusal::SliceLength);
    }
    strips::clear(d, 0, 0, n);
    strips::clear(u, 0, 0, size);
    columns(p, u, d, n)
}

// The columns from the last to the first, until a diagonal is zero.
fn columns(p: &[f64], u: &mut [f64], d: &mut [f64], n: usize) -> Answer
    requires udu_sized { UduSized n p.now u.old d.old }
    requires holding { Holding n nothing u.old d.old }
    ensures { Columned n (udu_of n p.now) result u.new d.new }
{
    if column::last(p, u, d, n) {
        return Err(Refusal::ZeroDiagonal((n - 1) as u32));
    }
    for j in (0..n - 1).rev() {
        if column::further(p, u, d, j, n) {
            return Err(Refusal::ZeroDiagonal(j as u32));
        }
    }
    Ok(())
}
