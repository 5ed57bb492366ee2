// Scripts of calls, from their bytes: which lines a text has, and the outlooks and stairs that they make. It rests
// on `words` and `operands` for the text, and on `model`, `stair` and `outlook` for what is made.
#![tactic(auto)]

mod line;
mod script;
mod text;

pub use line::Line;
pub use operands::{Fault, Kind, Malformed, Wanted, Wrong};
pub use script::Script;
pub use text::script_of;
