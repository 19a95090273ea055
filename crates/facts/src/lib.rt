//! Facts, the order of their arguments, and what answers questions about facts.
#![tactic(auto)]

mod calculated;
mod fact;
mod sought;
mod source;

pub use calculated::Calculated;
pub use fact::{Fact, Query, Tuple};
pub use sought::Sought;
pub use source::{FactSource, allow};
