// The stair model: a bit model that looks its counts up in a table. It rests on the interface of `model`.
#![tactic(auto)]

mod refusal;
mod stair;

pub use refusal::Refusal;
pub use stair::Stair;
