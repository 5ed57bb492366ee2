// The words of a line: how many there are, which stands at a place, and the value that a word
// writes. Rests on the standard library alone.
#![tactic(auto)]

mod numbers;
mod places;

pub use numbers::FromWord;
pub use places::{count, has_count, word_at};
