// The operands of a line, read from its words. The line's name is word 0.
ghost use Rattle.std.specs.Prelude.{◌≡◌, ◌+◌, [], length, drop, Some, is_ok, ◌==◌, slice_index_or, IfErr, MatchResult};
ghost use Rattle.std.specs.Result.{result_ok};
ghost use Rattle.words.specs.Words.{texts};
ghost use Rattle.operands.specs.Faults.{IsUnknown, IsCount, IsOperand, Told};
ghost use Rattle.operands.specs.Line.{words_of, values};

use crate::fault::{Fault, Malformed};
use crate::kind::Operand;
use std::alloc::Global;
use words::{count, has_count, word_at};

// The words of a line: its name, and then its operands.
#[derive(Clone, Copy)]
pub struct Operands<'w, 'a> {
    words: &'w [&'a str],
}

// Whether there are exactly n words beside the name.
fn has_operands(words: &[&str], n: usize) -> bool
    ensures { result ≡ (length (texts words.now) == n + 1) }
{
    match words.split_first() {
        Some((_, operands)) => has_count(operands, n),
        None => false,
    }
}

impl<'w, 'a> Operands<'w, 'a> {
    // The line that has these words.
    pub fn new(words: &'w [&'a str]) -> Self
        ensures { words_of result ≡ texts words.now }
    {
        Operands { words }
    }

    // The words of the line, its name first.
    pub fn words(self) -> &'w [&'a str]
        ensures { texts result.now ≡ words_of self.entry }
    {
        self.words
    }

    // The name of the line; it is empty where the line has no words.
    pub fn name(self) -> &'a str
        ensures { result.now ≡ slice_index_or (words_of self.entry) 0 [] }
    {
        word_at(self.words, 0)
    }

    // What is wrong with a line whose name names no such thing.
    pub fn unknown(self, what: &'static str) -> Malformed<'a>
        ensures { IsUnknown result what.now (words_of self.entry) }
    {
        Malformed::Unknown {
            what,
            word: self.name(),
        }
    }

    // Accepts exactly n operands; `which` names them.
    pub fn takes(self, n: usize, which: &'static str) -> Result<(), Malformed<'a>>
        ensures accepted { is_ok result ≡ (length (words_of self.entry) == n + 1) }
        ensures refused { IfErr result (λ m. IsCount m n which.now (words_of self.entry)) }
    {
        if has_operands(self.words, n) {
            return Ok(());
        }
        Err(Malformed::Count {
            name: self.name(),
            takes: n,
            which,
            found: count(self.words).saturating_sub(1),
        })
    }

    // The value of the operand at a place, counted from 1.
    pub fn at<T: Operand>(self, place: usize) -> Result<T, Malformed<'a>>
        ensures read { result_ok result ≡ T.written (slice_index_or (words_of self.entry) place []) }
        ensures refused { IfErr result (λ m. IsOperand m place T.WANTED (words_of self.entry)) }
    {
        let word = word_at(self.words, place);
        match T::from_word(word) {
            Some(value) => Ok(value),
            None => Err(Malformed::Operand {
                name: self.name(),
                place,
                word,
                wanted: T::WANTED,
            }),
        }
    }

    // The values of all operands. They are counted, since one that is malformed is told with its place.
    pub fn all<T: Operand + Drop>(self, heap: Global) -> Result<Vec<T>, Fault<'a>>
        ensures { MatchResult result (λ v. values T.written (drop 1 (words_of self.entry)) ≡ Some v.items) (λ e. Told (values T.written (drop 1 (words_of self.entry))) e) }
    {
        let mut all = Vec::new(heap);
        for place in 1..count(self.words) {
            all.push(self.at::<T>(place)?)?;
        }
        Ok(all)
    }
}
