// A bench's own columns: four or more that stand side by side are solved together, the others one by one.
ghost use Rattle.std.specs.Prelude.{◌≡◌, ◌+◌, ◌≤◌, ◌<◌, length, get_or};
ghost use Rattle.matrix.specs.Grid.{load};
ghost use Rattle.matrix.specs.Layouts.{lower};
ghost use Rattle.matrix.specs.Loop.{for};
ghost use Rattle.matrix.specs.Columns.{at_column, each_chosen, Lined};
ghost use Rattle.lblt_solve_columns.specs.Column.{solve_column};
ghost use Rattle.lblt_solve_columns.specs.inner.Engine.{Readable};
ghost use Rattle.lblt_bench.specs.Bench.{owns};
ghost use Rattle.lblt_bench.specs.inner.Stretch.{Stretch, first_other, Gone};

use lblt_solve::sides::together;
use lblt_solve_columns::solve_at;
use matrix::Layout;

// Where the first of these numbers stands that is another.
#[tactic(auto, unfolding(crate::specs::inner::Stretch::first_other))]
fn first_other(benches: &[u32], number: u32) -> Option<usize>
    ensures { result ≡ first_other number benches.now }
{
    benches.iter().position(|b| *b != number)
}

// The first column from `from` on whose number is another, or the number of columns.
fn stretch_end(benches: &[u32], number: u32, from: usize) -> usize
    requires { from ≤ length benches.now }
    ensures stretch { Stretch benches.now number from result }
    ensures other_number { result < length benches.now → get_or benches.now result 0 ≡ number → ⊥ }
{
    match first_other(&benches[from..], number) {
        Some(passed) => from + passed,
        None => benches.len(),
    }
}

// `count` columns from column j on.
fn solve_stretch(
    y: Layout,
    a: &[f64],
    words: &[u32],
    b: &mut [f64],
    columns: usize,
    j: usize,
    count: usize,
)
    requires readable { Readable y a.now words.now }
    requires lined { Lined y.order columns b.old }
    requires count_bound { j + count ≤ columns }
    requires room_value { y.room ≡ y.order }
    ensures { b.new ≡ for j (j + count) (at_column y.order (solve_column y.order (load (lower y) a.now) words.now)) b.old }
{
    let n = y.order;
    let at = j * n;
    let end = at + count * n;
    together(y, a, words, &mut b[at..end], count);
}

// Column j and those after it that have its number: passed over if it is not the bench's, else solved together, or column j alone where they are few. The
// column to go on from comes back.
fn solve_from(
    y: Layout,
    a: &[f64],
    words: &[u32],
    b: &mut [f64],
    benches: &[u32],
    bench: u32,
    j: usize,
) -> usize
    requires readable { Readable y a.now words.now }
    requires lined { Lined y.order (length benches.now) b.old }
    requires j_in_bounds { j < length benches.now }
    requires room_value { y.room ≡ y.order }
    ensures { Gone y.order (solve_column y.order (load (lower y) a.now) words.now) benches.now bench j result b.old b.new }
{
    let number = benches[j];
    let end = stretch_end(benches, number, j + 1);
    if number != bench {
        return end;
    }
    if end - j < 4 {
        solve_at(y, a, words, b, benches.len(), j);
        return j + 1;
    }
    solve_stretch(y, a, words, b, benches.len(), j, end - j);
    end
}

pub fn solve(y: Layout, a: &[f64], words: &[u32], b: &mut [f64], benches: &[u32], bench: u32)
    requires readable { Readable y a.now words.now }
    requires lined { Lined y.order (length benches.now) b.old }
    requires room_value { y.room ≡ y.order }
    ensures { b.new ≡ each_chosen y.order (length benches.now) (owns benches.now bench) (solve_column y.order (load (lower y) a.now) words.now) b.old }
{
    let mut j = 0;
    // A `while`: a step passes as many columns as the stretch has.
    while j < benches.len() {
        j = solve_from(y, a, words, b, benches, bench, j);
    }
}
