// The operands of a line: how many there are, the value that each writes, and what is wrong with a
// line that cannot be read. It rests on `words`.
#![tactic(auto)]

mod fault;
mod kind;
mod operands;
mod reading;

pub use fault::{Fault, Malformed, Wrong};
pub use kind::{Kind, Operand, Wanted};
pub use operands::Operands;
pub use reading::{Reader, read_text};
