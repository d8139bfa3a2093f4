// The page and the warning that the program writes, into a lent slice of bytes.
#![tactic(auto)]

mod lines;
mod page;
mod put;

pub use put::{put_page, put_refusal, put_twin};
