// Why a line is refused.
ghost use Rattle.std.specs.Prelude.{◌≡◌, Some};
ghost use Rattle.std.specs.Fmt.{decimal};
ghost use Rattle.replies.specs.Reasons.{number};
ghost use Rattle.replies.specs.declared.reason.Reason.TheVariants as variants;

use std::fmt;

// A refusal of an opening, a call, an outlook or a stair.
#[derive(Clone, Copy, PartialEq, Eq, Debug)]
pub enum Reason {
    Opening(model::Refusal),
    Call(calls::Refusal),
    Outlook(outlook::Refusal),
    Stair(stair::Refusal),
}

impl From<model::Refusal> for Reason {
    ghost from_gives = { λ opening reason. reason ≡ variants.Opening opening };

    fn from(opening: model::Refusal) -> Reason {
        Reason::Opening(opening)
    }
}

impl From<calls::Refusal> for Reason {
    ghost from_gives = { λ call reason. reason ≡ variants.Call call };

    fn from(call: calls::Refusal) -> Reason {
        Reason::Call(call)
    }
}

impl From<outlook::Refusal> for Reason {
    ghost from_gives = { λ outlook reason. reason ≡ variants.Outlook outlook };

    fn from(outlook: outlook::Refusal) -> Reason {
        Reason::Outlook(outlook)
    }
}

impl From<stair::Refusal> for Reason {
    ghost from_gives = { λ stair reason. reason ≡ variants.Stair stair };

    fn from(stair: stair::Refusal) -> Reason {
        Reason::Stair(stair)
    }
}

// The number of the question that was answered by no.
impl From<Reason> for u8 {
    ghost from_gives = { λ reason n. n ≡ number reason };

    fn from(reason: Reason) -> u8 {
        match reason {
            Reason::Opening(refusal) => refusal.number(),
            Reason::Call(refusal) => refusal.into(),
            Reason::Outlook(refusal) => refusal.into(),
            Reason::Stair(refusal) => refusal.into(),
        }
    }
}

// A reason is told by its number.
impl fmt::Display for Reason {
    ghost output = { λ reason. Some (decimal (number reason)) };

    fn fmt<W: fmt::Write>(&self, f: &mut fmt::Formatter<W>) -> fmt::Result {
        let number = u8::from(*self);
        write!(f, "{number}")
    }
}
