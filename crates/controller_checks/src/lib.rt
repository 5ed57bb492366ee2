// Tests of the controller from outside: refusals, tickets, reports, and choices at the ends of their operands. They
// stand in a crate of their own, since a crate with tests is proved twice. `client` shows tickets in use.
#![tactic(auto)]

#[cfg(test)]
mod choices;
mod client;
#[cfg(test)]
mod openings;
#[cfg(test)]
mod reports;
#[cfg(test)]
mod setting;
#[cfg(test)]
mod tickets;
