// The settings that a model is made from, passed on from `setup`.
pub use setup::{Accepted, LawfulSettings, Settings};
