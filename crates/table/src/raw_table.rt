//! A table as a caller hands it over, well or badly formed.
ghost use Rattle.std.specs.Prelude.{◌≡◌, [], ◌∷◌, ◌++◌, length, replicate, is_ok, IfOk, if◌then◌else◌, Some, None, nat_lt, slice_set};
ghost use Rattle.std.specs.Result.{result_err};
ghost use Rattle.refusal.specs.declared.Cause.TheVariants.{OverLimit};
ghost use Rattle.table.specs.Form.{ask, first};

use crate::node::{Declaration, Node};
use refusal::{Cause, Refusal};
use std::alloc::{AllocError, Global};

/// The declarations of the predicates 0 to 63, and the nodes of a formula, the last of which is the root.
#[derive(Drop)]
pub struct Table {
    pub declarations: [Option<Declaration>; 64],
    pub nodes: Vec<Node>,
}

impl Table {
    /// Nothing declared, and no nodes.
    pub fn new(heap: Global) -> Table
        ensures nodes { result.nodes.items ≡ [] }
        ensures declarations { result.declarations ≡ replicate 64 None }
    {
        Table {
            declarations: [None; 64],
            nodes: Vec::new(heap),
        }
    }

    /// Declares a predicate, in place of an earlier declaration; a predicate over 63 has a number over its limit.
    pub fn declare(&mut self, predicate: u8, declaration: Declaration) -> Result<(), Refusal>
        ensures refusal { result_err result ≡ first (ask OverLimit 0 (nat_lt 63 predicate) ∷ []) }
        ensures nodes { self.new.nodes ≡ self.old.nodes }
        ensures declarations { self.new.declarations ≡ (if is_ok result then slice_set self.old.declarations predicate (Some declaration) else self.old.declarations) }
    {
        // A test and an index: through `get_mut` a proof does not learn what the array then holds.
        if predicate > 63 {
            return Err(Cause::OverLimit.at(0));
        }
        self.declarations[usize::from(predicate)] = Some(declaration);
        Ok(())
    }

    /// Appends a node, and answers its number; where memory fails, nothing changes.
    pub fn append(&mut self, node: Node) -> Result<usize, AllocError>
        ensures number { IfOk result (λ n. n ≡ length self.old.nodes.items) }
        ensures nodes { self.new.nodes.items ≡ (if is_ok result then self.old.nodes.items ++ node ∷ [] else self.old.nodes.items) }
        ensures declarations { self.new.declarations ≡ self.old.declarations }
    {
        let number = self.nodes.len();
        self.nodes.push(node)?;
        Ok(number)
    }

    /// The same declarations and nodes, in memory of their own.
    pub fn copy(&self, heap: Global) -> Result<Table, AllocError>
        ensures { IfOk result (λ t. (t.declarations ≡ self.now.declarations) × (t.nodes.items ≡ self.now.nodes.items)) }
    {
        Ok(Table {
            declarations: self.declarations,
            nodes: Vec::from_slice(heap, self.nodes.as_slice())?,
        })
    }
}
