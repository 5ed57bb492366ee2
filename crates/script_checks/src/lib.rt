// Tests of scripts and replies from outside: each fault of a line, the ends of operands, what stands at a line, and
// the text of every reply. They stand in a crate of their own, since a crate with tests is proved twice.
#![tactic(auto)]

#[cfg(test)]
mod answered;
#[cfg(test)]
mod faults;
#[cfg(test)]
mod made;
mod replying;
