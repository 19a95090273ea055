//! Summaries of the past: rows, and what keeps them.
#![tactic(auto)]

ghost use Rattle.summary.specs.Growth.{CachedHaveRows, RowsGrow, RowsStay};
ghost use Rattle.summary.specs.Rows.{RowsServe};

mod decliner;
mod keeper;
mod row;
mod row_table;

pub use decliner::Decliner;
pub use keeper::Keeper;
pub use row::Row;
pub use row_table::RowTable;

/// The theorem that the cached nodes of a table that keeps the form rules have rows, and look at the past only.
pub fn cached_have_rows()
    ensures { CachedHaveRows }
{}

/// The theorem that a formula that has rows is true exactly where one of its rows serves.
pub fn rows_serve()
    ensures { RowsServe }
{}

/// The theorem that the row list over one more position is the old one, of which the rows whose left side holds again are
/// lengthened by one, and then the new position's rows; and that facts at positions not shown change no rows.
pub fn rows_grow()
    ensures grow { RowsGrow }
    ensures stay { RowsStay }
{}
