// Tests of whole runs over a curve. They stand in a crate of their own, since a crate with tests is proved twice.
#![tactic(auto)]

mod reports;
#[cfg(test)]
mod runs;
