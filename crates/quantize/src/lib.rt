// AV1's quantizer: the calls with raw numbers, and the indexes and plane scales of a frame from its log
// quantizer. It rests on `logexp`, `tables`, `raw_tables` and `planes`.
//
// `q`, `select_qi` and `QuantizerParameters::new_from_log_q` take raw numbers and refuse a bad one. The methods of
// `tables::Depth`, and `QuantizerParameters::of`, are the same for a depth and a sampling that are known, for
// crates above that have asked already.
#![tactic(auto)]

pub mod answer;
mod call;
mod laws;
mod parameters;
pub mod sampling;
mod scale;

pub use answer::{QuantizerParameters, Refusal, Scales};
pub use laws::{figures_stand, reach_stands, scales_stand};
pub use raw_tables::{Coefficient, q, select_qi};
pub use sampling::{ChromaSampling, NoSuchSampling};
