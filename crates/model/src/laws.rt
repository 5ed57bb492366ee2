// Laws of the curve model, each in the contract of a function, and a worked opening.
ghost use Rattle.std.specs.Prelude.{◌≡◌, ℤ, pos};
ghost use Rattle.model.specs.Laws.{BoundsKept, OthersKept, ScaleAgrees, SeenAgain, NearSeen, FiguresHold};
ghost use Rattle.model.specs.Scales.{counted};
ghost use Rattle.logexp.specs.LogExp.{blog64, bexp64};

// A curve keeps its exponents at 1 or more, the delay of its I filter at 4 and those of the others from 10 to half
// the reservoir's, whatever lessons it is given.
pub fn bounds_stand() -> u8
    ensures { BoundsKept }
{
    0
}

// A lesson leaves the other three filters as they were; a first lesson or a trial makes scale and follower agree
// on what was just seen, and unless a sum is held the curve then predicts it.
pub fn lessons_stand() -> u8
    ensures others { OthersKept }
    ensures agrees { ScaleAgrees }
    ensures again { SeenAgain }
{
    0
}

// A count of bits as a signed number.
fn signed(bits: u32) -> i64
    ensures { result ≡ pos bits }
{
    bits as i64
}

// What a curve predicts after a first lesson of so many bits, where no sum was held: it lies between the powers of
// two around them.
pub fn predicted_again(bits: u32) -> i64
    ensures value { result ≡ pos (counted (bexp64 (blog64 (pos bits)))) }
    ensures near { NearSeen bits result }
{
    logexp::bexp64(logexp::blog64(signed(bits)))
}

// The worked opening holds of the definitions: the number of its figures.
pub fn figures() -> u8
    ensures count { result ≡ 3 }
    ensures hold { FiguresHold }
{
    3
}
