//! Both journals, bare and under each pile of layers, through the same calls.
#![tactic(auto)]

#[cfg(test)]
mod calls;
#[cfg(test)]
mod course;
#[cfg(test)]
mod tests;
