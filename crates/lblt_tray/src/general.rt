// One item of any order. Its record is the one that its own factor has just written, so that nothing of it is looked at but the mark.
ghost use Rattle.lblt_tray.specs.Tray.{ItemSolved};
ghost use Rattle.lblt_tray.specs.inner.Engine.{Item};

use answer::Refusal;
use lblt_solve_columns::solve_column;
use matrix::Layout;

// The number of the solve's answer comes back.
pub fn item(a: &mut [f64], words: &mut [u32], b: &mut [f64], n: usize, run: u32) -> u64
    requires { Item n a.old words.old b.old }
    ensures { ItemSolved n run a.old words.old b.old result a.new words.new b.new }
{
    let y = Layout::full(n);
    let mark = lblt::fill(y, a, words, run);
    if mark != 0 {
        return Refusal::ZeroMark(mark - 1).number();
    }
    solve_column(y, a, words, b);
    0
}
