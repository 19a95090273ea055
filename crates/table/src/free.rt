//! The free variables of each node of a table.
ghost use Rattle.std.specs.Prelude.{◌≡◌, ◌≤◌, false, List, length};
ghost use Rattle.sets.specs.Sets.{members};
ghost use Rattle.table.specs.Formula.{Formula, formula_of, formulas, free, FreeUpTo};
ghost use Rattle.table.specs.Form.{not_below, Descends};

use crate::node::Node;
use sets::SmallSet;

/// The free variables of the nodes of a table, which has at most 32, by number.
pub type FreeSets = [SmallSet; 32];

/// The free variables of a node, from those of the nodes before it.
fn free_of(node: Node, before: &[SmallSet]) -> SmallSet
    requires { not_below (length before.now) node ≡ false }
    ensures { (fs : List Formula) → FreeUpTo before.now (length before.now) fs → members result ≡ free (formula_of fs (length before.now) node) }
{
    // Each operator's rule stands here as in the definition of `free`: a fold over the operands would be no plainer.
    match node {
        Node::True | Node::False => SmallSet::none(),
        Node::Atom { terms, .. } => terms.variables_at(SmallSet::below(3)),
        Node::And { left, right }
        | Node::Or { left, right }
        | Node::Since { left, right, .. }
        | Node::Until { left, right, .. } => before[left].union(before[right]),
        Node::Exists { variables, body } => before[body].minus(variables),
        Node::Forall {
            variables,
            left,
            right,
        } => before[left].union(before[right]).minus(variables),
        Node::Prev { body, .. }
        | Node::Once { body, .. }
        | Node::Hist { body, .. }
        | Node::Next { body, .. }
        | Node::Event { body, .. }
        | Node::Always { body, .. } => before[body],
    }
}

pub(crate) fn free_sets(nodes: &[Node]) -> FreeSets
    requires { (length nodes.now ≤ 32) × Descends nodes.now }
    ensures { FreeUpTo result (length nodes.now) (formulas nodes.now) }
{
    let mut sets = [SmallSet::none(); 32];
    for (i, node) in nodes.iter().enumerate() {
        sets[i] = free_of(*node, &sets[..i]);
    }
    sets
}
