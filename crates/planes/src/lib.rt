// How chroma is sampled, and the log quantizers of a frame's planes. It rests on `logexp` and `tables`.
#![tactic(auto)]

mod planes;
mod sampling;

pub use planes::{ChromaOffset, chroma_offset, luma_log};
pub use sampling::{ChromaSampling, NoSuchSampling};
