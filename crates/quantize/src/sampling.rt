// How chroma is sampled, passed on from `planes`.
pub use planes::{ChromaSampling, NoSuchSampling};
