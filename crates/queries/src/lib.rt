// Questions about logarithms and quantizers, from their bytes, and their answers. It rests on `words`
// and `operands` for the text, and on `logexp` and `quantize` for what is answered.
#![tactic(auto)]

mod answer;
mod lines;
mod query;

pub use answer::{Answer, Outcome, answer_to};
pub use lines::queries;
pub use operands::{Fault, Kind, Malformed, Wanted, Wrong};
pub use query::{Query, query_of};
