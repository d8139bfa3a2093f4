// What the program writes: the page, the line of a refusal, the warning. Each writer answers where its text ends in the lent slice, as `Put` promises.
ghost use Rattle.sheet_page.specs.Put.{Put};
ghost use Rattle.sheet_page.specs.Asked.{PutPage};
ghost use Rattle.sheet_page.specs.Page.{matrix_in, page_of, refusal_of, twin_line};

use crate::page::Page;
use answer::Answer;

// The page of a factored matrix.
pub fn put_page(out: &mut [u8], n: usize, words: &[u32], a: &[f64], det: f64) -> usize
    requires { PutPage n words.now a.now }
    ensures { Put out.old 0 (page_of n words.now (matrix_in n a.now) det) result out.new }
{
    let mut page = Page::new(out);
    page.number_line(b"order\t", n);
    page.pivots(words, n);
    page.zero(pivots::mark(words, n));
    let entries = page.entries(n, a);
    page.det(det);
    page.number_line(b"end\t", n + entries);
    page.end()
}

// The one line of a refusal.
pub fn put_refusal(out: &mut [u8], r: Answer) -> usize
    ensures { Put out.old 0 (refusal_of r) result out.new }
{
    let mut page = Page::new(out);
    page.refusal(r);
    page.end()
}

// The line that names twin rows.
pub fn put_twin(out: &mut [u8], p: u32, q: u32) -> usize
    ensures { Put out.old 0 (twin_line p q) result out.new }
{
    let mut page = Page::new(out);
    page.pair_line(b"twin\t", p as usize, q as usize);
    page.end()
}
