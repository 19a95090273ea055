//! A vector whose room is reserved when it is made.
#![tactic(auto)]

mod reserved;

pub use reserved::Reserved;
