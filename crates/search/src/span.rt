// The bases that a search still has in question.
ghost use Rattle.std.specs.Prelude.{◌≡◌, ◌+◌, ◌-◌, ◌^◌, ◌<◌, pos, ◌+ℤ◌, ◌-ℤ◌, neg_ℤ, ◌≤ℤ◌, ◌<ℤ◌};
ghost use Rattle.search.specs.Hunt.{middle};

use crate::ends::Ends;

// The bases from lo to hi, or none, after so many tries.
#[derive(Clone, Copy)]
pub(crate) struct Span {
    pub(crate) lo: i64,
    pub(crate) hi: i64,
    pub(crate) tries: u32,
    ghost low: { neg_ℤ (pos (2 ^ 60)) <ℤ lo },
    ghost high: { hi <ℤ pos (2 ^ 60) },
    ghost near: { lo ≤ℤ (hi +ℤ pos 1) },
}

impl Span {
    // All bases between the ends, before the first try.
    pub(crate) fn between(ends: Ends) -> Span
        ensures lo { result.lo ≡ ends.bottom }
        ensures hi { result.hi ≡ ends.top }
        ensures tries { result.tries ≡ 0 }
    {
        Span {
            lo: ends.bottom,
            hi: ends.top,
            tries: 0,
        }
    }

    // The middle, rounded down.
    pub(crate) fn middle(self) -> i64
        ensures value { result ≡ middle self.lo self.hi }
        ensures low { self.lo <ℤ self.hi → self.lo ≤ℤ result }
        ensures high { self.lo <ℤ self.hi → result <ℤ self.hi }
    {
        (self.lo + self.hi) >> 1
    }

    // Above the middle, which predicts more than the total.
    pub(crate) fn up(self) -> Span
        requires apart { self.lo <ℤ self.hi }
        requires few { self.tries < 60 }
        ensures lo { result.lo ≡ middle self.lo self.hi +ℤ pos 1 }
        ensures hi { result.hi ≡ self.hi }
        ensures tries { result.tries ≡ self.tries + 1 }
    {
        Span {
            lo: self.middle() + 1,
            hi: self.hi,
            tries: self.tries + 1,
        }
    }

    // Below the middle, which predicts less than the total.
    pub(crate) fn down(self) -> Span
        requires apart { self.lo <ℤ self.hi }
        requires few { self.tries < 60 }
        ensures lo { result.lo ≡ self.lo }
        ensures hi { result.hi ≡ middle self.lo self.hi -ℤ pos 1 }
        ensures tries { result.tries ≡ self.tries + 1 }
    {
        Span {
            lo: self.lo,
            hi: self.middle() - 1,
            tries: self.tries + 1,
        }
    }
}
