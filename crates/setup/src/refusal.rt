// Why settings are refused.
ghost use Rattle.std.specs.Prelude.{◌≡◌};
ghost use Rattle.setup.specs.Questions.{number};
ghost use Rattle.setup.specs.declared.refusal.Refusal.TheVariants.{Depth, Sampling};

use quantize::NoSuchSampling;
use tables::NoSuchDepth;

// The question that was answered by no.
#[derive(Clone, Copy, PartialEq, Eq, Debug)]
pub enum Refusal {
    // Width or height is not 1 to 65,536.
    Size,
    // The frame rate's numerator or denominator is not 1 to 1,000,000.
    Rate,
    // The bitrate is not 1 to 2,147,483,647.
    Bitrate,
    // The depth is not 8, 10 or 12.
    Depth,
    // The sampling is not 0, 1, 2 or 3.
    Sampling,
    // The highest index is under the lowest.
    Indexes,
    // The key interval is not 1 to 10,000, or the delay not 12 to 1,024.
    Timing,
    // The reservoir's limit is above 2^35 bits.
    Limit,
}

// A depth that AV1 lacks answers question 4 by no.
impl From<NoSuchDepth> for Refusal {
    ghost from_gives = { λ _ refusal. refusal ≡ Depth };

    fn from(_error: NoSuchDepth) -> Self {
        Self::Depth
    }
}

// A code that stands for no sampling answers question 5 by no.
impl From<NoSuchSampling> for Refusal {
    ghost from_gives = { λ _ refusal. refusal ≡ Sampling };

    fn from(_error: NoSuchSampling) -> Self {
        Self::Sampling
    }
}

impl Refusal {
    // The number of the question: 1 to 8, in the order in which they are asked. A method, since a crate that knows this
    // type only as `model` passes it on can call it, and cannot reach a conversion.
    pub fn number(self) -> u8
        ensures { result ≡ number self }
    {
        match self {
            Refusal::Size => 1,
            Refusal::Rate => 2,
            Refusal::Bitrate => 3,
            Refusal::Depth => 4,
            Refusal::Sampling => 5,
            Refusal::Indexes => 6,
            Refusal::Timing => 7,
            Refusal::Limit => 8,
        }
    }
}

// The same number.
impl From<Refusal> for u8 {
    ghost from_gives = { λ refusal n. n ≡ number refusal };

    fn from(refusal: Refusal) -> Self {
        refusal.number()
    }
}
