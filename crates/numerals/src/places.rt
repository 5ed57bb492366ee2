// How many words there are, and which stands at a place.
ghost use Rattle.std.specs.Prelude.{◌≡◌, [], length, ◌==◌, slice_index_or};
ghost use Rattle.numerals.specs.Words.{texts};

// The word at a place, counted from 0; past the last word it is empty.
pub fn word_at<'a>(words: &[&'a str], i: usize) -> &'a str
    ensures { result.now ≡ slice_index_or (texts words.now) i [] }
{
    words.get(i).copied().unwrap_or("")
}

// How many words there are.
#[tactic(auto, using(crate::proofs::Reading::length_texts))]
pub fn count(words: &[&str]) -> usize
    ensures { result ≡ length (texts words.now) }
{
    words.len()
}

// Whether there are exactly n words.
pub fn has_count(words: &[&str], n: usize) -> bool
    ensures { result ≡ (length (texts words.now) == n) }
{
    count(words) == n
}
