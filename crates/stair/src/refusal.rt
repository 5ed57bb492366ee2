// Why a stair is refused.
ghost use Rattle.std.specs.Prelude.{◌≡◌};
ghost use Rattle.stair.specs.Stairs.{number};

// The question that was answered by no.
#[derive(Clone, Copy, PartialEq, Eq, Debug)]
pub enum Refusal {
    // A row rises somewhere.
    Rises,
}

// The number of the question: 34.
impl From<Refusal> for u8 {
    ghost from_gives = { λ refusal n. n ≡ number refusal };

    fn from(refusal: Refusal) -> u8 {
        match refusal {
            Refusal::Rises => 34,
        }
    }
}
