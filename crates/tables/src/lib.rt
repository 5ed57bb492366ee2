// AV1's six quantizer tables, and the index of a table that stands for a quantizer. It rests on the standard
// library alone.
#![tactic(auto)]

mod coefficient;
mod depth;
mod laws;
mod select;
mod tables;

pub use coefficient::Coefficient;
pub use depth::{Depth, NoSuchDepth};
pub use laws::{choice_stands, tables_stand};
