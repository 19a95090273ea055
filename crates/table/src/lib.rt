//! The table of a policy: what a caller hands over, its formula, and the form rules.
#![tactic(auto)]

mod arguments;
mod form;
mod free;
mod node;
mod raw_table;
mod terms;

pub use arguments::Arguments;
pub use form::{declaration_of, form_rules_stand, formulas_stand, times_in};
pub use free::FreeSets;
pub use node::{Declaration, Interval, Node, Term, Terms, Value};
pub use raw_table::Table;
pub use sets::SmallSet;
