// The calls of a rate controller as they are recorded, and what they answer: plain records, which the controller, its
// runs and the programs share. It rests on `quantize`.
#![tactic(auto)]

mod answer;
mod call;
mod refusal;

pub use answer::{Answer, Decision, Reported, Status};
pub use call::{Call, SEF_BITS};
pub use refusal::Refusal;
