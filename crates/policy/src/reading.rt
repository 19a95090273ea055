//! What a checked policy says of its nodes. Past the last node there is nothing: no wait, no rows, no variables.
ghost use Rattle.std.specs.Prelude.{◌≡◌, length, if◌then◌else◌, Some, None, nat_lt, slice_index_or};
ghost use Rattle.sets.specs.Sets.{members};
ghost use Rattle.table.specs.Formula.{free, formula_at, root_of};
ghost use Rattle.table.specs.Form.{node_at};
ghost use Rattle.policy.specs.Modes.{cached};
ghost use Rattle.policy.specs.Wait.{wait};
ghost use Rattle.policy.specs.Notes.{Noted};
ghost use Rattle.policy.specs.Links.{parent_from, Linked};
ghost use Rattle.policy.specs.Verdict.{Accepted};
ghost use Rattle.policy.specs.Checked.{nodes_of, declarations_of};

use crate::checked::Policy;
use crate::notes::Note;
use sets::SmallSet;
use table::{Declaration, Node, declaration_of};

impl Policy {
    pub fn node_count(&self) -> usize
        ensures { result ≡ length (nodes_of self.now) }
    {
        self.table.nodes.len()
    }

    pub fn node(&self, n: usize) -> Option<Node>
        ensures { result ≡ (if nat_lt n (length (nodes_of self.now)) then Some (node_at (nodes_of self.now) n) else None) }
    {
        self.table.nodes.get(n).copied()
    }

    pub fn declaration(&self, predicate: u8) -> Option<Declaration>
        ensures { result ≡ slice_index_or (declarations_of self.now) predicate None }
    {
        declaration_of(&self.table.declarations, predicate)
    }

    /// What is noted of a node.
    fn note(&self, n: usize) -> Note
        ensures { Noted (declarations_of self.now) (nodes_of self.now) n result }
    {
        // A test and no `get`: the array has 32 notes, of which those past the last node say nothing.
        if n < self.node_count() {
            self.notes[n]
        } else {
            Note::blank(n)
        }
    }

    /// The free variables of a node.
    pub fn free(&self, n: usize) -> SmallSet
        ensures { members result ≡ free (formula_at (nodes_of self.now) n) }
    {
        self.note(n).free
    }

    /// The seconds after a position's stamp that a node's truth there may depend on.
    pub fn wait_of(&self, n: usize) -> u64
        ensures { result ≡ wait (formula_at (nodes_of self.now) n) }
    {
        self.note(n).wait
    }

    /// The wait of the policy, which is that of its root.
    pub fn wait(&self) -> u64
        ensures { result ≡ wait (formula_at (nodes_of self.now) (root_of (nodes_of self.now))) }
    {
        self.wait_of(self.node_count().saturating_sub(1))
    }

    /// Whether a node keeps rows.
    pub fn is_cached(&self, n: usize) -> bool
        ensures { result ≡ cached (declarations_of self.now) (formula_at (nodes_of self.now) n) }
    {
        self.note(n).cached
    }

    /// The parent of a node; the root is its own.
    pub fn parent(&self, n: usize) -> usize
        ensures { result ≡ parent_from 0 (nodes_of self.now) n }
    {
        self.note(n).parent
    }

    /// What holds of every policy: its table is accepted, and its parent links lead from each child to its parent.
    pub fn stands(&self)
        ensures accepted { Accepted (declarations_of self.now) (nodes_of self.now) }
        ensures linked { Linked (nodes_of self.now) (parent_from 0 (nodes_of self.now)) }
    {}
}
