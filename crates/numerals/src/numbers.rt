// The value that a word writes: a number at each width that the programs read, or a mark. A number is one digit or
// more, perhaps with a sign before them; leading zeros count for nothing.
ghost use Rattle.std.specs.Prelude.{◌≡◌, ℕ, List};
ghost use Rattle.std.specs.declared.option.Option as option;
ghost use Rattle.numerals.specs.Words.{maybe, signed, unsigned, mark_of};

// A value that a word can write.
pub trait FromWord: Sized {
    // The value that the bytes of a word write, if they write one.
    ghost written: { List ℕ → option.Option Self };

    // The value that the word writes; `None` for any other word.
    fn from_word(word: &str) -> Option<Self>
        ensures { result ≡ written word.now };
}

// A number below 2^8, `+` in front or no sign.
impl FromWord for u8 {
    ghost written = { unsigned 8 };

    #[tactic(auto, using(crate::proofs::Reading::unsigned_read))]
    fn from_word(word: &str) -> Option<u8> {
        word.parse::<u8>().ok()
    }
}

// The same below 2^32.
impl FromWord for u32 {
    ghost written = { unsigned 32 };

    #[tactic(auto, using(crate::proofs::Reading::unsigned_read))]
    fn from_word(word: &str) -> Option<u32> {
        word.parse::<u32>().ok()
    }
}

// The same below 2^64.
impl FromWord for u64 {
    ghost written = { unsigned 64 };

    #[tactic(auto, using(crate::proofs::Reading::unsigned_read))]
    fn from_word(word: &str) -> Option<u64> {
        word.parse::<u64>().ok()
    }
}

// A number from -2^63 to 2^63 - 1, `-` or `+` in front or no sign.
impl FromWord for i64 {
    ghost written = { signed };

    #[tactic(auto, using(crate::proofs::Reading::signed_read))]
    fn from_word(word: &str) -> Option<i64> {
        word.parse::<i64>().ok()
    }
}

// A mark: `0` is false and `1` is true, and no other word is one, as `01`.
impl FromWord for bool {
    ghost written = { mark_of };

    fn from_word(word: &str) -> Option<bool> {
        match word {
            "0" => Some(false),
            "1" => Some(true),
            _ => None,
        }
    }
}

// A dash is none, and any other word is read as what may be absent.
impl<T: FromWord + Drop> FromWord for Option<T> {
    ghost written = { maybe T.written };

    fn from_word(word: &str) -> Option<Option<T>> {
        match word {
            "-" => Some(None),
            _ => Some(Some(T::from_word(word)?)),
        }
    }
}
