//! Checked policies: the modes of a formula, which of its nodes keep rows, and how long a verdict waits.
#![tactic(auto)]

mod checked;
mod checking;
mod links;
mod modes;
mod notes;
mod outline;
mod reading;
mod waits;

pub use checked::Policy;
pub use checking::{RefusedTable, check, check_stands};
pub use modes::{examples_stand, walk_stands};
