// Why an outlook was not made.
ghost use Rattle.std.specs.Prelude.{◌≡◌};
ghost use Rattle.outlook.specs.Numbers.{number};
ghost use Rattle.outlook.specs.declared.refusal.NotMade.TheVariants.{NoMemory};

use std::alloc::AllocError;

// A list or a pattern has a wrong number of entries, or an entry is not lawful.
#[derive(Clone, Copy, PartialEq, Eq, Debug)]
pub enum Refusal {
    WrongLength,
    Unlawful,
}

// The number of the question that was answered no: 31 or 32.
impl From<Refusal> for u8 {
    ghost from_gives = { λ refusal n. n ≡ number refusal };

    fn from(refusal: Refusal) -> u8 {
        match refusal {
            Refusal::WrongLength => 31,
            Refusal::Unlawful => 32,
        }
    }
}

// A list or a pattern is refused, or there is no memory for its entries.
#[derive(Clone, Copy, PartialEq, Eq, Debug)]
pub enum NotMade {
    Refused(Refusal),
    NoMemory,
}

impl From<AllocError> for NotMade {
    ghost from_gives = { λ _ e. e ≡ NoMemory };

    fn from(_e: AllocError) -> NotMade {
        NotMade::NoMemory
    }
}
