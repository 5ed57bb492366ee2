// Laws of the definitions, each the contract of a function.
ghost use Rattle.std.specs.Prelude.{◌≡◌};
ghost use Rattle.logexp.specs.Figures.{FiguresHold};
ghost use Rattle.logexp.specs.Laws.{OctaveKept};
ghost use Rattle.logexp.specs.Powers.{PowerTest};

// How many worked figures there are.
const FIGURES: u8 = 5;

// The worked figures hold of the definitions: their number.
pub fn figures() -> u8
    ensures count { result ≡ 5 }
    ensures hold { FiguresHold }
{
    FIGURES
}

// The digits tell the powers of two: for every place m, w & (w - 1) is 0 exactly at w = 2^m among
// the numbers from 2^m to 2^(m + 1).
pub fn power_test_stands() -> u8
    ensures { PowerTest }
{
    0
}

// A number and the power of its logarithm stay in one octave: both lie from 2^m up to 2^(m + 1), for
// every place m up to 62.
pub fn octaves_stand() -> u8
    ensures { OctaveKept }
{
    0
}
