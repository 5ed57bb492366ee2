// A digital approximation of a low-pass Bessel follower of second order: it reacts fast to a change of its
// input and settles with hardly a swing. Whole numbers alone, so that every machine answers the same. It rests on
// the held arithmetic of `logexp`.
#![tactic(auto)]

mod follower;
mod laws;
mod parameters;
mod tangent;

pub use follower::IIRBessel2;
pub use laws::{figures, sums_stand};
pub use parameters::{Parameters, iir_bessel2_get_parameters};
pub use tangent::warp_alpha;
