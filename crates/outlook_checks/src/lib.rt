// Tests of outlooks from outside, on both sides of every bound. They stand in a crate of their own, since a crate with
// tests is proved twice.
#![tactic(auto)]

mod again;
#[cfg(test)]
mod counting;
#[cfg(test)]
mod entries;
