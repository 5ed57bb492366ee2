// Bit models: what a frame of a subtype will use at a log quantizer, and the settings that they are made from.
// It rests on `logexp`, `setup` and `bessel`.
#![tactic(auto)]

mod bit_model;
mod curve;
mod filter;
mod laws;
mod lesson;
pub mod refusal;
mod room;
pub mod settings;
mod trim;

pub use bit_model::BitModel;
pub use curve::Curve;
pub use laws::{bounds_stand, figures, lessons_stand, predicted_again};
pub use lesson::Lesson;
pub use refusal::Refusal;
pub use room::Room;
pub use settings::{Accepted, Settings};
