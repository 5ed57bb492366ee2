// The rate controller: one text for every bit model. It rests on `model`, `outlook`, `search`, `aim`, `flat`,
// `quantize` and `calls`.
#![tactic(auto)]

mod charging;
mod choosing;
mod controller;
mod opening;
mod performing;
mod reporting;
mod state;
mod ticket;

pub use controller::{Controller, Unopened};
pub use state::{Core, Frame, Profile, Reservoir};
pub use ticket::{Choice, Ticket, Unspent};
