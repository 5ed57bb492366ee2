// What the lines of a script come to: the runs that it is cut into, the calls that a run makes, and what each line is
// replied. It rests on `scripts` for the lines, on `calls` for calls and their answers, and on the
// crates whose refusals are told.
#![tactic(auto)]

mod block;
mod playing;
mod reason;
mod reply;
mod standing;
mod text;

pub use block::{block_length, calls_of, replies_of};
pub use playing::{NoMemory, Runner, play};
pub use reason::Reason;
pub use reply::{Name, Reply, reply_to};
pub use standing::{Standing, call_of, standing_after};
