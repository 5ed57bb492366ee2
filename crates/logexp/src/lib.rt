// The binary logarithm and the binary exponential in whole numbers, by CORDIC: shifts, sums and one
// table, so that every machine answers the same. Logarithms are signed 64-bit numbers in Q57
// (2^57 stands for 1), and powers are plain signed 64-bit numbers.
#![tactic(auto)]

mod exp;
mod laws;
mod log;
mod tables;
mod turns;

pub use exp::bexp64;
pub use laws::{figures, octaves_stand, power_test_stands};
pub use log::blog64;
