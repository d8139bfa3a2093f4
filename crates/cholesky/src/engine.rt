// The columns of a batch, one after the other.
ghost use Rattle.std.specs.Prelude.{◌≡◌, ℕ, ◌+◌, ◌≤◌, ◌<◌, slice_index_or};
ghost use Rattle.leaf.specs.Root.{root_of};
ghost use Rattle.matrix.specs.Grid.{load};
ghost use Rattle.matrix.specs.Layouts.{lower, Laid};
ghost use Rattle.cholesky.specs.Column.{part};
ghost use Rattle.cholesky.specs.Run.{updates, below};
ghost use Rattle.cholesky.specs.Crate.{answer_to};
ghost use Rattle.cholesky.specs.Floor.{floor_rule};
ghost use Rattle.cholesky.specs.Leaves.{Leaves};
ghost use Rattle.cholesky.specs.inner.Engine.{Reach, Sourced, less_columns, Judgement, Finished, Advanced, RanThrough};

use crate::Floored;
use answer::{Answer, Refusal};
use matrix::Layout;
use strips::Source;

// What stands for a diagonal that is let through, and how many columns used the floor there: 1 if it stood in, else 0.
#[derive(Clone, Copy)]
pub struct Verdict {
    pub root: f64,
    pub used: usize,
}

// What is answered to the diagonal d of column j.
pub fn answer_to(d: f64, j: usize) -> Answer
    requires { j ≤ 1024 }
    ensures { result ≡ answer_to d j }
{
    let column = j as u32;
    if 0.0 < d {
        return Ok(());
    }
    if d == 0.0 {
        return Err(Refusal::CholeskyZero(column));
    }
    if d < 0.0 {
        return Err(Refusal::CholeskyBelowZero(column));
    }
    Err(Refusal::CholeskyNan(column))
}

// The diagonal d of column j is judged: where it fails its test and the floor does not, the floor stands in for it, whose root is `spare`.
fn judge(d: f64, j: usize, floor: f64, spare: f64) -> Result<Verdict, Refusal>
    requires j_bound { j ≤ 1024 }
    requires spare_value { spare ≡ root_of floor }
    ensures { Judgement (floor_rule floor) d j result }
{
    match answer_to(d, j) {
        Ok(()) => Ok(Verdict {
            root: leaf::root(d),
            used: 0,
        }),
        Err(_) if 0.0 < floor => Ok(Verdict {
            root: spare,
            used: 1,
        }),
        Err(refusal) => Err(refusal),
    }
}

// Column k, and what it is multiplied by on its way to column j.
fn source(y: Layout, a: &[f64], j: usize, k: usize) -> Source
    requires laid { Laid y a.now }
    requires k_lt_j { k < j }
    requires j_lt_order { j < y.order }
    ensures { Sourced y a.now j k result }
{
    let start = y.start(k);
    Source {
        start: start,
        scale: -a[j + start],
    }
}

// The rows from r on of column j, less what the W columns from k on take.
fn subtract<const W: usize>(
    y: Layout,
    a: &mut [f64],
    r: usize,
    j: usize,
    k: usize,
    columns: [Source; W],
)
    requires laid { Laid y a.old }
    requires reach { Reach y r j }
    requires k_bound { k + W ≤ j }
    requires sourced { (c : ℕ) (s : _) → c < W → Sourced y a.old j (k + c) (slice_index_or columns c s) }
    ensures { Leaves y a.old a.new (part r j (less_columns (load (lower y) a.old) j k (k + W)) (load (lower y) a.old)) }
{
    strips::axpy(a, y.start(j), r, y.order, columns);
}

// The rows from r on of column j, less what the columns before it take: four at a time, then the others. The columns are written out, so that the compiler
// keeps their places as single numbers: made by `array::from_fn`, they cost a strip of few rows up to 1.4 times its time.
fn update(y: Layout, a: &mut [f64], r: usize, j: usize)
    requires laid { Laid y a.old }
    requires reach { Reach y r j }
    ensures { Leaves y a.old a.new (updates r j (load (lower y) a.old)) }
{
    let others = j - j % 4;
    for k in (0..others).step_by(4) {
        let columns = [
            source(y, a, j, k),
            source(y, a, j, k + 1),
            source(y, a, j, k + 2),
            source(y, a, j, k + 3),
        ];
        subtract(y, a, r, j, k, columns);
    }
    for k in others..j {
        let columns = [source(y, a, j, k)];
        subtract(y, a, r, j, k, columns);
    }
}

// The rows from r on of column j, divided by its diagonal.
fn divide(y: Layout, a: &mut [f64], r: usize, j: usize)
    requires laid { Laid y a.old }
    requires j_lt_r { j < r }
    requires r_le_order { r ≤ y.order }
    ensures { Leaves y a.old a.new (below r j (load (lower y) a.old)) }
{
    let d = matrix::get(y, a, j, j);
    strips::unscale(a, y.start(j), r, y.order, d);
}

// The updated column j gets its root, and the rows below are divided by it. How many columns used the floor, none or one, comes back.
fn finish(y: Layout, a: &mut [f64], j: usize, floor: f64, spare: f64) -> Result<usize, Refusal>
    requires laid { Laid y a.old }
    requires j_lt_order { j < y.order }
    requires spare_value { spare ≡ root_of floor }
    ensures { Finished (floor_rule floor) y j a.old a.new result }
{
    let verdict = judge(matrix::get(y, a, j, j), j, floor, spare)?;
    matrix::put(y, a, j, j, verdict.root);
    divide(y, a, j + 1, j);
    Ok(verdict.used)
}

// Column j of a batch whose rows start at m. How many columns used the floor, none or one, comes back.
fn advance(
    y: Layout,
    a: &mut [f64],
    m: usize,
    j: usize,
    floor: f64,
    spare: f64,
) -> Result<usize, Refusal>
    requires laid { Laid y a.old }
    requires m_le_order { m ≤ y.order }
    requires j_lt_order { j < y.order }
    requires spare_value { spare ≡ root_of floor }
    ensures { Advanced (floor_rule floor) y m j a.old a.new result }
{
    if j < m {
        update(y, a, m, j);
        divide(y, a, m, j);
        return Ok(0);
    }
    update(y, a, j, j);
    finish(y, a, j, floor, spare)
}

// The rows from m on, in all columns.
pub fn run(y: Layout, a: &mut [f64], m: usize, floor: f64) -> Floored
    requires laid { Laid y a.old }
    requires m_le_order { m ≤ y.order }
    ensures { RanThrough (floor_rule floor) y m a.old a.new result }
{
    let n = y.order;
    let spare = leaf::root(floor);
    let mut used: usize = 0;
    for j in 0..n {
        match advance(y, a, m, j, floor, spare) {
            Ok(more) => used += more,
            Err(refusal) => {
                return Floored {
                    answer: Err(refusal),
                    used,
                };
            }
        }
    }
    Floored {
        answer: Ok(()),
        used,
    }
}
