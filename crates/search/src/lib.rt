// The search of a choice: what a base log quantizer predicts for the frames ahead, and the bisection that finds the base
// whose prediction meets a total. It rests on `flat`, and on the interfaces of `model` and `outlook`.
#![tactic(auto)]

mod ends;
mod forecast;
mod found;
mod hunt;
mod span;

pub use ends::Ends;
pub use forecast::predict_base;
pub use found::Found;
pub use hunt::{hunts_stand, search};
