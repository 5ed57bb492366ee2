// The figures of a choice that need no model: the bits that the frames ahead have to share, and the base and the log
// quantizer between the previous frame's base, the highest and the lowest index. It rests on `flat` and `outlook`.
#![tactic(auto)]

mod bounds;
mod total;

pub use bounds::{Aim, highest_of, is_set, near_previous};
pub use total::rate_total;
