// What a controller and its model are opened with: settings, the eight questions put to them, and the figures that
// accepted settings give. It rests on `logexp`, `tables` and `quantize`.
#![tactic(auto)]

mod lawful;
mod refusal;
mod settings;

pub use lawful::LawfulSettings;
pub use refusal::Refusal;
pub use settings::{Accepted, Settings};
