// Tests of the libraries from outside, on both sides of every bound. They stand in a crate of their own, since a
// crate with tests is proved twice.
#![tactic(auto)]

#[cfg(test)]
mod logs;
#[cfg(test)]
mod quantizers;
#[cfg(test)]
mod questions;
#[cfg(test)]
mod reading;
mod refusals;
#[cfg(test)]
mod texts;
