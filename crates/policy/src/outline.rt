//! A table that keeps the form rules, lent to the passes over its nodes.
ghost use Rattle.std.specs.Prelude.{◌≡◌, false, IfSome, MatchOption};
ghost use Rattle.sets.specs.Sets.{members};
ghost use Rattle.table.specs.Formula.{verum, formula_at, formula_of, formulas, free};
ghost use Rattle.table.specs.Arguments.{kept};
ghost use Rattle.table.specs.Form.{not_below};
ghost use Rattle.policy.specs.Modes.{given_of, needed};
ghost use Rattle.policy.specs.Outlined.{Outlined};

use sets::SmallSet;
use table::{Declaration, FreeSets, Node, Terms, declaration_of};

/// The nodes and declarations of such a table, with the free variables of each node.
#[derive(Clone, Copy)]
pub(crate) struct Outline<'a> {
    pub(crate) nodes: &'a [Node],
    pub(crate) declarations: &'a [Option<Declaration>],
    pub(crate) free: &'a FreeSets,
    ghost outlined: { Outlined nodes.now free.now },
}

impl Outline<'_> {
    /// The node n, if there is one: its formula is that of the node, and past the last it is true.
    pub(crate) fn node(self, n: usize) -> Option<Node>
        ensures stands { MatchOption result (formula_at self.entry.nodes.now n ≡ verum 0) (λ node. formula_at self.entry.nodes.now n ≡ formula_of (formulas self.entry.nodes.now) n node) }
        ensures descends { IfSome result (λ node. not_below n node ≡ false) }
    {
        self.nodes.get(n).copied()
    }

    /// The free variables of the node n; past the last there are none.
    #[tactic(auto, using(table::proofs::Unrolled::formula_past))]
    pub(crate) fn free_of(self, n: usize) -> SmallSet
        ensures { members result ≡ free (formula_at self.entry.nodes.now n) }
    {
        // A test and no `get`: the array has 32 sets, of which those past the last node say nothing.
        if n < self.nodes.len() {
            self.free[n]
        } else {
            SmallSet::none()
        }
    }

    /// The variables at the arguments of an atom that must be given.
    pub(crate) fn needed(self, predicate: u8, terms: Terms) -> SmallSet
        ensures { members result ≡ needed self.entry.declarations.now predicate (kept terms) }
    {
        terms.variables_at(given_of(declaration_of(self.declarations, predicate)))
    }
}

fn given_of(declaration: Option<Declaration>) -> SmallSet
    ensures { members result ≡ given_of declaration }
{
    declaration.map_or(SmallSet::none(), |declaration| declaration.given)
}
