//! A journal of records: a table of stamps and a table of facts with their positions.
#![tactic(auto)]

mod record;
mod record_table;

pub use record_table::RecordTable;
