// The text of a sheet: digits, numbers, lines, and the reader of a whole sheet.
#![tactic(auto)]

mod digit;
mod line;
mod place;
mod reader;

pub use digit::digit_value;
pub use line::{Entry, Found, entry_line, number_line, read_bits, read_number, word_stands};
pub use place::{Place, Places};
pub use reader::read_sheet;
