// Why a call with raw numbers is refused.
ghost use Rattle.std.specs.Prelude.{◌≡◌};
ghost use Rattle.raw_tables.specs.Calls.{number};
ghost use Rattle.raw_tables.specs.declared.refusal.Refusal.TheVariants.{NoSuchDepth, NoSuchSampling};

use planes::NoSuchSampling;
use tables::NoSuchDepth;

// What a call with raw numbers was refused for.
#[derive(Clone, Copy, PartialEq, Eq, Debug)]
pub enum Refusal {
    // The bit depth is not 8, 10 or 12.
    NoSuchDepth,
    // The sampling is not 0, 1, 2 or 3.
    NoSuchSampling,
}

// A depth that AV1 lacks is a refusal.
impl From<NoSuchDepth> for Refusal {
    ghost from_gives = { λ _ refusal. refusal ≡ NoSuchDepth };

    fn from(_error: NoSuchDepth) -> Self {
        Self::NoSuchDepth
    }
}

// A code that stands for no sampling is a refusal.
impl From<NoSuchSampling> for Refusal {
    ghost from_gives = { λ _ refusal. refusal ≡ NoSuchSampling };

    fn from(_error: NoSuchSampling) -> Self {
        Self::NoSuchSampling
    }
}

impl Refusal {
    // The number that stands for the refusal in every interface: 4 for a depth, 5 for a sampling. A method, since a crate
    // that knows this type only as another passes it on can call it, and cannot reach a conversion.
    pub fn number(self) -> u8
        ensures { result ≡ number self }
    {
        match self {
            Refusal::NoSuchDepth => 4,
            Refusal::NoSuchSampling => 5,
        }
    }
}

// The same number.
impl From<Refusal> for u8 {
    ghost from_gives = { λ refusal n. n ≡ number refusal };

    fn from(refusal: Refusal) -> Self {
        refusal.number()
    }
}
