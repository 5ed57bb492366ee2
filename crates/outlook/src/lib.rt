// Outlooks: which frames lie ahead. An outlook is a list of entries, one for each coming frame, and counting tells
// how many of each subtype come within some temporal units. It rests on `flat` for the subtypes of frames.
#![tactic(auto)]

mod counting;
mod counts;
mod entry;
mod known;
mod laws;
mod list;
mod making;
mod nothing;
mod packed;
mod packing;
mod pattern;
mod refusal;
mod repeating;
mod walking;

pub use counting::Outlook;
pub use counts::Counts;
pub use entry::{Entry, NoSuchEntry};
pub use known::Known;
pub use laws::{counts_stand, patterns_stand};
pub use list::List;
pub use nothing::NothingAhead;
pub use pattern::Pattern;
pub use refusal::{NotMade, Refusal};
