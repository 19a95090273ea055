//! Rows of summaries.
use table::Value;

/// A row: values for the variables of a cached node, 0 for those that are not among them, the position at which its body
/// or right side was true, and the last position at which it still counts.
#[derive(Clone, Copy, PartialEq, Eq, Debug)]
pub struct Row {
    pub values: [Value; 8],
    pub first: usize,
    pub last: usize,
}
