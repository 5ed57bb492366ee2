// Tests of the follower, the settings and both bit models from outside, on both sides of every bound. They stand in
// a crate of their own, since a crate with tests is proved twice.
#![tactic(auto)]

#[cfg(test)]
mod curves;
#[cfg(test)]
mod followers;
#[cfg(test)]
mod opening;
#[cfg(test)]
mod operands;
mod refusals;
#[cfg(test)]
mod stairs;
