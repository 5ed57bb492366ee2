// Where a search begins: the logs of two quantizer indexes.
ghost use Rattle.std.specs.Prelude.{◌≡◌, ℕ, ◌^◌, min, max, pos, neg_ℤ, ◌≤ℤ◌, ◌<ℤ◌};
ghost use Rattle.flat.specs.Flat.{ac_log};

use flat::{ac_log, logs_stand};
use tables::Depth;

// The bottom and the top of a search, in order and within 8 doublings of 0.
#[derive(Clone, Copy)]
pub struct Ends {
    pub(crate) bottom: i64,
    pub(crate) top: i64,
    ghost low: { neg_ℤ (pos (2 ^ 60)) <ℤ bottom },
    ghost high: { top <ℤ pos (2 ^ 60) },
    ghost order: { bottom ≤ℤ top },
}

impl Ends {
    // The logs of the AC entries of two indexes at a depth, the lower index first.
    pub fn between(a: u8, b: u8, depth: Depth) -> Ends
        ensures bottom { result.bottom ≡ ac_log (min a b) depth }
        ensures top { result.top ≡ ac_log (max a b) depth }
    {
        logs_stand();
        Ends {
            bottom: ac_log(a.min(b), depth),
            top: ac_log(a.max(b), depth),
        }
    }
}
