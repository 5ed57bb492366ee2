// The room that the next frame has in the reservoir.
ghost use Rattle.std.specs.Prelude.{◌≡◌, ℤ};
ghost use Rattle.model.specs.Trims.{soft_of, hard_of};

use crate::trim::Margin;

// What a trim goes by: the reservoir's fullness, the credit of a shown frame and the most that the reservoir holds, in
// bits, and whether a highest index is set.
#[derive(Clone, Copy, PartialEq, Eq, Debug)]
pub struct Room {
    pub fullness: i64,
    pub credit: i64,
    pub limit: i64,
    pub highest: bool,
}

impl Room {
    // The soft limit, the bits that the next frame should use at least: what would not fit below the margin.
    pub(crate) fn soft(self, margin: Margin) -> i64
        ensures { result ≡ soft_of self margin.bits }
    {
        self.fullness
            .saturating_add(self.credit)
            .saturating_sub(self.limit.saturating_sub(margin.bits))
    }

    // The hard limit, the bits that the next frame may use at most.
    pub(crate) fn hard(self) -> i64
        ensures { result ≡ hard_of self }
    {
        self.fullness.saturating_add(self.credit >> 1)
    }
}
