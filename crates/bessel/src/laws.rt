// Worked figures of the tangent and of the parameters, by computing, and a law of the step.
ghost use Rattle.std.specs.Prelude.{◌≡◌};
ghost use Rattle.bessel.specs.Figures.{FiguresHold};
ghost use Rattle.bessel.specs.Laws.{NeverHeld};

// The tangents of the delays 4 and 10 are 4,096 and 1,333, and the definitions give the parameters of both:
// the number of the figures.
pub fn figures() -> u8
    ensures count { result ≡ 4 }
    ensures hold { FiguresHold }
{
    4
}

// With parameters in range, as those of every delay are, no sum or product of a step is ever held.
pub fn sums_stand() -> u8
    ensures { NeverHeld }
{
    0
}
