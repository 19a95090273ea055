//! The one way to a policy.
ghost use Rattle.std.specs.Prelude.{◌≡◌, length, is_ok, IfOk, Decides};
ghost use Rattle.std.specs.Result.{result_err};
ghost use Rattle.policy.specs.Notes.{NotedUpTo};
ghost use Rattle.policy.specs.Verdict.{refusal_of, Accepted, RefusedUnlessAccepted};
ghost use Rattle.policy.specs.Checked.{refusal_in, table_in};

use crate::checked::Policy;
use crate::notes::{Notes, notes_of};
use crate::outline::Outline;
use refusal::{Cause, Refusal};
use sets::SmallSet;
use table::Table;

/// A refused table, with the reason; the table is as it was handed over.
#[derive(Drop)]
pub struct RefusedTable {
    pub refusal: Refusal,
    pub table: Table,
}

/// The policy of a table, or the first refusal by the order of the rules, with the table back.
pub fn check(table: Table) -> Result<Policy, RefusedTable>
    ensures table { table_in result ≡ table }
    ensures refusal { refusal_in result ≡ refusal_of table.declarations table.nodes.items }
    ensures accepts { Decides (is_ok result) (Accepted table.declarations table.nodes.items) }
{
    // A match and not map with map_err: each side takes the table.
    match accept(&table) {
        Ok(notes) => Ok(Policy { table, notes }),
        Err(refusal) => Err(RefusedTable { refusal, table }),
    }
}

/// The notes of the nodes of a table, or the first refusal.
fn accept(table: &Table) -> Result<Notes, Refusal>
    ensures refusal { result_err result ≡ refusal_of table.now.declarations table.now.nodes.items }
    ensures noted { IfOk result (λ notes. NotedUpTo table.now.declarations table.now.nodes.items notes (length table.now.nodes.items)) }
{
    let free = table.check_form()?;
    let nodes = table.nodes.as_slice();
    let outline = Outline {
        nodes,
        declarations: &table.declarations,
        free: &free,
    };
    outline
        .searchable(nodes.len() - 1, SmallSet::none())
        .map_err(|place| Cause::NotSearchable.at(place))?;
    Ok(notes_of(outline))
}

/// The theorem that a table is accepted exactly if it keeps every form rule and its root is searchable from nothing.
pub fn check_stands()
    ensures { RefusedUnlessAccepted }
{}
