//! Both keepers of rows through the same calls, and the table of rows when it is full.
#![tactic(auto)]

#[cfg(test)]
mod tests;
