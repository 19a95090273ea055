//! A journal in bytes.
#![tactic(auto)]

mod appending;
mod creation;
mod packed;
mod reading;
mod sizes;
mod source;
mod writing;

pub use creation::bytes_stand;
pub use packed::Packed;
