// The base and the log quantizer of a frame, and the bounds that they are kept within.
ghost use Rattle.std.specs.Prelude.{◌≡◌, ℕ, ℤ};
ghost use Rattle.aim.specs.Bounds.{highest_of, set_of, within_reach, near, at_most, at_least, under, over};

use flat::{FlatQuantizer, Subtype, calc_flat_quantizer};
use tables::Depth;

// The highest index where none is set.
const LAST_INDEX: u8 = 255;

// How far a base may lie from the previous frame's, in Q57: the log of 1.25.
const REACH: i64 = 0xA4_D3C2_5E68_DC58;

// A base log quantizer, and the log quantizer of the frame. It has the fields of a flat quantizer, which stands for an
// index alone: one type for both would say less of either.
#[derive(Clone, Copy)]
pub struct Aim {
    pub log_base_q: i64,
    pub log_q: i64,
}

// The highest index, 255 where none is set.
pub fn highest_of(highest: Option<u8>) -> u8
    ensures { result ≡ highest_of highest }
{
    highest.unwrap_or(LAST_INDEX)
}

// Whether a highest index is set.
pub fn is_set(highest: Option<u8>) -> bool
    ensures { result ≡ set_of highest }
{
    highest.is_some()
}

// A base within reach of the previous one.
fn within_reach(previous: i64, log_base_q: i64) -> i64
    ensures { result ≡ within_reach previous log_base_q }
{
    log_base_q.clamp(
        previous.saturating_sub(REACH),
        previous.saturating_add(REACH),
    )
}

// The base, no farther from the previous frame's than it may be. Where there was no previous frame it stays.
pub fn near_previous(previous: Option<i64>, log_base_q: i64) -> i64
    ensures { result ≡ near previous log_base_q }
{
    previous.map_or(log_base_q, |previous| within_reach(previous, log_base_q))
}

impl Aim {
    // Neither base nor log above those of an index.
    fn at_most(self, most: FlatQuantizer) -> Aim
        ensures { result ≡ at_most self most }
    {
        Aim {
            log_base_q: self.log_base_q.min(most.log_base_q),
            log_q: self.log_q.min(most.log_q),
        }
    }

    // Neither base nor log below those of an index.
    fn at_least(self, least: FlatQuantizer) -> Aim
        ensures { result ≡ at_least self least }
    {
        Aim {
            log_base_q: self.log_base_q.max(least.log_base_q),
            log_q: self.log_q.max(least.log_q),
        }
    }

    // No higher than the highest index stands for, if one is set.
    pub fn under_highest(self, highest: Option<u8>, depth: Depth, subtype: Subtype) -> Aim
        ensures { result ≡ under highest depth subtype self }
    {
        highest.map_or(
            self,
            |index| self.at_most(calc_flat_quantizer(index, depth, subtype)),
        )
    }

    // No lower than the lowest index stands for, if it is above 0.
    pub fn over_lowest(self, lowest: u8, depth: Depth, subtype: Subtype) -> Aim
        ensures { result ≡ over lowest depth subtype self }
    {
        if lowest == 0 {
            return self;
        }
        self.at_least(calc_flat_quantizer(lowest, depth, subtype))
    }
}
