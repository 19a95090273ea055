//! Journals: sources of facts that also have stamps and take new positions, and the layers over any journal.
#![tactic(auto)]

mod joined;
mod journal;
mod session;
mod standing;
mod two;

pub use joined::Joined;
pub use journal::{Journal, Stamp, check_facts, known_to_journals};
pub use session::Session;
pub use standing::Standing;
pub use two::{commit_two, commit_two_apart};
