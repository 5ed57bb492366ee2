// Why settings are refused, passed on from `setup`.
pub use setup::Refusal;
