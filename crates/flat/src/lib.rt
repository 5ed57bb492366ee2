// The subtypes of coded frames, the logs of table entries, and the quantizer of an index without rate control.
// It rests on `logexp` and `tables`.
#![tactic(auto)]

mod flat;
mod subtype;

pub use flat::{FlatQuantizer, ac_log, calc_flat_quantizer, flat_log, logs_stand};
pub use subtype::{NoSuchSubtype, Subtype};
