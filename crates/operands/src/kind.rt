// What an operand has to be.
ghost use Rattle.std.specs.Prelude.{true, false};
ghost use Rattle.operands.specs.declared.kind.Wanted as wanted;
ghost use Rattle.operands.specs.declared.kind.Kind.TheVariants.{Byte, Word, Long, Signed, Mark};

use std::fmt;
use words::FromWord;

// The kinds of values that operands write.
#[derive(Clone, Copy, Debug, PartialEq, Eq)]
pub enum Kind {
    // A whole number of 8 bits.
    Byte,
    // A whole number of 32 bits.
    Word,
    // A whole number of 64 bits.
    Long,
    // A whole number of 64 bits with its sign.
    Signed,
    // `0` or `1`.
    Mark,
}

// A value of a kind, or also a dash, which says that there is none.
#[derive(Clone, Copy, Debug, PartialEq, Eq)]
pub struct Wanted {
    pub kind: Kind,
    pub or_dash: bool,
}

// A value that an operand can write.
pub trait Operand: FromWord {
    ghost WANTED: { wanted.Wanted };

    // What the operand has to be.
    const WANTED: Wanted;
}

impl Operand for u8 {
    ghost WANTED = { record { kind = Byte; or_dash = false } };

    const WANTED: Wanted = Wanted {
        kind: Kind::Byte,
        or_dash: false,
    };
}

impl Operand for u32 {
    ghost WANTED = { record { kind = Word; or_dash = false } };

    const WANTED: Wanted = Wanted {
        kind: Kind::Word,
        or_dash: false,
    };
}

impl Operand for u64 {
    ghost WANTED = { record { kind = Long; or_dash = false } };

    const WANTED: Wanted = Wanted {
        kind: Kind::Long,
        or_dash: false,
    };
}

impl Operand for i64 {
    ghost WANTED = { record { kind = Signed; or_dash = false } };

    const WANTED: Wanted = Wanted {
        kind: Kind::Signed,
        or_dash: false,
    };
}

impl Operand for bool {
    ghost WANTED = { record { kind = Mark; or_dash = false } };

    const WANTED: Wanted = Wanted {
        kind: Kind::Mark,
        or_dash: false,
    };
}

// The same, or a dash.
impl<T: Operand + Drop> Operand for Option<T> {
    ghost WANTED = { record { kind = T.WANTED.kind; or_dash = true } };

    const WANTED: Wanted = Wanted {
        kind: T::WANTED.kind,
        or_dash: true,
    };
}

// What a word is not that should be of a kind.
impl fmt::Display for Wanted {
    fn fmt<W: fmt::Write>(&self, f: &mut fmt::Formatter<W>) -> fmt::Result {
        let numbers = match self.kind {
            Kind::Byte => "0 to 255",
            Kind::Word => "0 to 4294967295",
            Kind::Long => "0 to 18446744073709551615",
            Kind::Signed => "-9223372036854775808 to 9223372036854775807",
            Kind::Mark => return f.write_str(if self.or_dash {
                "neither -, 0 nor 1"
            } else {
                "neither 0 nor 1"
            }),
        };
        if self.or_dash {
            write!(f, "neither - nor a whole number from {numbers}")
        } else {
            write!(f, "no whole number from {numbers}")
        }
    }
}
