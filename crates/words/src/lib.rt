// Text by lines and words: which bytes are text, the lines of a text and the words of a line. How
// many words there are, which stands where and the value that each writes is `numerals`, which is
// passed on.
#![tactic(auto)]

mod lines;

pub use lines::{NotText, lines_of, text_of, words_of};
pub use numerals::{FromWord, count, has_count, word_at};
