//! The checked policy itself. Its fields are private, so that only `check` makes one.
ghost use Rattle.std.specs.Prelude.{length};
ghost use Rattle.policy.specs.Notes.{NotedUpTo};
ghost use Rattle.policy.specs.Verdict.{Accepted};

use crate::notes::Notes;
use table::Table;

/// A table that keeps every rule, with what a search of it needs to know of each node.
#[derive(Drop)]
pub struct Policy {
    pub(super) table: Table,
    pub(super) notes: Notes,
    ghost accepted: { Accepted table.declarations table.nodes.items },
    ghost noted: { NotedUpTo table.declarations table.nodes.items notes (length table.nodes.items) },
}
