// Why a line cannot be read, and how that is told.
ghost use Rattle.std.specs.Prelude.{◌≡◌};
ghost use Rattle.operands.specs.declared.fault.Fault.TheVariants as fault;

use crate::kind::Wanted;
use std::alloc::{AllocError, AllocFailed};
use std::error::Error;
use std::fmt;

// What is wrong with the words of a line.
#[derive(Clone, Copy, Debug)]
pub enum Malformed<'a> {
    // The first word names no such thing.
    Unknown {
        what: &'static str,
        word: &'a str,
    },
    // The line takes other operands: how many and which, and how many there are.
    Count {
        name: &'a str,
        takes: usize,
        which: &'static str,
        found: usize,
    },
    // The operand at a place, counted from 1, is not what it has to be.
    Operand {
        name: &'a str,
        place: usize,
        word: &'a str,
        wanted: Wanted,
    },
}

// Why a line cannot be read.
#[derive(Clone, Copy, Debug)]
pub enum Fault<'a> {
    // Its words are malformed.
    Malformed(Malformed<'a>),
    // It holds a byte that is no UTF-8.
    NotText,
    // There is no memory to read it.
    NoMemory,
}

// A line that cannot be read, counted from 1, and why.
#[derive(Clone, Copy, Debug)]
pub struct Wrong<'a> {
    pub line: usize,
    pub fault: Fault<'a>,
}

impl<'a> From<Malformed<'a>> for Fault<'a> {
    ghost from_gives = { λ malformed e. e ≡ fault.Malformed malformed };

    fn from(malformed: Malformed<'a>) -> Fault<'a> {
        Fault::Malformed(malformed)
    }
}

impl From<AllocError> for Fault<'_> {
    ghost from_gives = { λ _ e. e ≡ fault.NoMemory };

    fn from(_e: AllocError) -> Self {
        Self::NoMemory
    }
}

impl<T: Drop> From<AllocFailed<T>> for Fault<'_> {
    ghost from_gives = { λ _ e. e ≡ fault.NoMemory };

    fn from(failed: AllocFailed<T>) -> Self {
        Fault::from(AllocError::from(failed))
    }
}

impl Error for Malformed<'_> {}

impl Error for Fault<'_> {}

impl Error for Wrong<'_> {}

// How many characters of a word are shown.
const SHOWN: usize = 40;

// A word in quotes; a control character is shown as `?`, and of a long word only its beginning.
#[derive(Clone, Copy)]
struct Quoted<'a>(&'a str);

impl fmt::Display for Quoted<'_> {
    fn fmt<W: fmt::Write>(&self, f: &mut fmt::Formatter<W>) -> fmt::Result {
        f.write_str("'")?;
        for c in self.0.chars().take(SHOWN) {
            if c.is_control() {
                f.write_str("?")?;
            } else {
                write!(f, "{c}")?;
            }
        }
        if self.0.chars().nth(SHOWN).is_some() {
            f.write_str("...")?;
        }
        f.write_str("'")
    }
}

impl fmt::Display for Malformed<'_> {
    fn fmt<W: fmt::Write>(&self, f: &mut fmt::Formatter<W>) -> fmt::Result {
        match *self {
            Malformed::Unknown { what, word } => {
                let word = Quoted(word);
                write!(f, "unknown {what} {word}")
            }
            Malformed::Count {
                name,
                takes,
                which,
                found,
            } => match takes {
                0 => write!(f, "{name} takes no operands, found {found}"),
                1 => write!(f, "{name} takes 1 operand ({which}), found {found}"),
                _ => write!(f, "{name} takes {takes} operands ({which}), found {found}"),
            },
            Malformed::Operand {
                name,
                place,
                word,
                wanted,
            } => {
                let word = Quoted(word);
                write!(f, "operand {place} of {name}, {word}, is {wanted}")
            }
        }
    }
}

impl fmt::Display for Fault<'_> {
    fn fmt<W: fmt::Write>(&self, f: &mut fmt::Formatter<W>) -> fmt::Result {
        match self {
            Fault::Malformed(what) => write!(f, "{what}"),
            Fault::NotText => f.write_str("not UTF-8"),
            Fault::NoMemory => f.write_str("no memory to read it"),
        }
    }
}

impl fmt::Display for Wrong<'_> {
    fn fmt<W: fmt::Write>(&self, f: &mut fmt::Formatter<W>) -> fmt::Result {
        let line = self.line;
        let fault = self.fault;
        write!(f, "line {line}: {fault}")
    }
}
