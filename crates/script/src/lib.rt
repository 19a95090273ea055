//! A line of a script, read into a command: on values, with no input or output.
#![tactic(auto)]

// A text that can't be read has no cause to tell: readers answer an `Option`, where `TryFrom` would want an error.
mod applied;
mod command;
mod keywords;
mod kinds;
mod nodes;
mod numbers;
mod operators;
mod pieces;
mod verbs;
mod words;

pub use applied::{Values, lists_stand};
pub use command::{Command, fact_at, is_passed_over, read};
pub use facts::{Fact, Query};
pub use kinds::{JournalKind, KeeperKind};
