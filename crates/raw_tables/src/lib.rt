// AV1's tables by raw numbers: the entry of an index, and the index that stands for a quantizer. A depth that AV1
// lacks is refused. It rests on `tables`, and on `planes` for the refusal of a sampling.
#![tactic(auto)]

mod call;
mod refusal;

pub use call::{q, select_qi};
pub use refusal::Refusal;
pub use tables::Coefficient;
