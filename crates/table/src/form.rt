//! The form rules: whether a table can be read as a formula at all.
ghost use Rattle.std.specs.Prelude.{◌≡◌, ◌<◌, ◌≤◌, ◌++◌, false, length, IfOk, Some, None, OnOk, slice_index_or};
ghost use Rattle.std.specs.Option.{option_to_list};
ghost use Rattle.std.specs.Result.{result_err};
ghost use Rattle.std.specs.List.{list_any};
ghost use Rattle.sets.specs.Sets.{members};
ghost use Rattle.table.specs.Form.{Descends, times, children, bindings, over_limit, atom_over, declaration_over, not_below, not_declared, bad_interval, parent_count, not_one_parent, wrong_count, first, in_turn, of_size, of_node, node_questions, of_parents, of_bindings, of_root, form_questions};
ghost use Rattle.table.specs.Formed.{Formed, RefusedUnlessFormed, FormulasUnfold};
ghost use Rattle.table.specs.Formula.{formulas, FreeUpTo};

use crate::free::{FreeSets, free_sets};
use crate::node::{Declaration, Node, Terms};
use crate::raw_table::Table;
use crate::terms::some_over;
use refusal::{Cause, Refusal};
use sets::SmallSet;

/// The operands of a node, left first.
// A pair and no list: a check asks for them some 1,500 times, and of a list of two it took nearly twice as long.
fn operands(node: Node) -> (Option<usize>, Option<usize>)
    ensures { option_to_list result.0 ++ option_to_list result.1 ≡ children node }
{
    match node {
        Node::True | Node::False | Node::Atom { .. } => (None, None),
        Node::And { left, right }
        | Node::Or { left, right }
        | Node::Forall { left, right, .. }
        | Node::Since { left, right, .. }
        | Node::Until { left, right, .. } => (Some(left), Some(right)),
        Node::Exists { body, .. }
        | Node::Prev { body, .. }
        | Node::Once { body, .. }
        | Node::Hist { body, .. }
        | Node::Next { body, .. }
        | Node::Event { body, .. }
        | Node::Always { body, .. } => (Some(body), None),
    }
}

/// How often a node has `child` for an operand.
pub fn times_in(node: Node, child: usize) -> usize
    ensures is { result ≡ times child (children node) }
    ensures few { result ≤ 2 }
{
    let (left, right) = operands(node);
    usize::from(left == Some(child)) + usize::from(right == Some(child))
}

fn not_below(node: Node, i: usize) -> bool
    ensures { result ≡ not_below i node }
{
    let (left, right) = operands(node);
    left.is_some_and(|operand| operand >= i) || right.is_some_and(|operand| operand >= i)
}

fn atom_over(predicate: u8, terms: Terms) -> bool
    ensures { result ≡ atom_over predicate terms }
{
    predicate > 63 || terms.count > 3 || some_over(terms.kept())
}

fn over_limit(node: Node) -> bool
    ensures { result ≡ over_limit node }
{
    matches!(node, Node::Atom { predicate, terms } if atom_over(predicate, terms))
}

fn bad_interval(node: Node) -> bool
    ensures { result ≡ bad_interval node }
{
    match node {
        Node::Prev { interval, .. }
        | Node::Once { interval, .. }
        | Node::Hist { interval, .. }
        | Node::Since { interval, .. } => interval.hi.is_some_and(|hi| interval.lo > hi),
        Node::Next { interval, .. }
        | Node::Event { interval, .. }
        | Node::Always { interval, .. }
        | Node::Until { interval, .. } => interval.hi.is_none_or(|hi| interval.lo > hi),
        _ => false,
    }
}

/// The variables that a node binds.
fn variables_bound(node: Node) -> SmallSet
    ensures { members result ≡ bindings node }
{
    match node {
        Node::Exists { variables, .. } | Node::Forall { variables, .. } => variables,
        _ => SmallSet::none(),
    }
}

fn declaration_over(declaration: Declaration) -> bool
    ensures { result ≡ declaration_over (Some declaration) }
{
    declaration.count > 3 || !declaration.given.within(SmallSet::below(declaration.count))
}

/// What is declared of a predicate, nothing past the end.
pub fn declaration_of(declarations: &[Option<Declaration>], predicate: u8) -> Option<Declaration>
    ensures { result ≡ slice_index_or declarations.now predicate None }
{
    declarations.get(usize::from(predicate)).copied().flatten()
}

impl Table {
    /// The free variables of each node, or the first form rule that the table breaks.
    #[tactic(auto, using(crate::proofs::Questions::parts))]
    pub fn check_form(&self) -> Result<FreeSets, Refusal>
        ensures refusal { result_err result ≡ first (form_questions self.now.declarations self.now.nodes.items) }
        ensures formed { OnOk result (Formed self.now.declarations self.now.nodes.items) }
        ensures free { IfOk result (λ s. FreeUpTo s (length self.now.nodes.items) (formulas self.now.nodes.items)) }
    {
        self.check_size()?;
        self.check_nodes()?;
        self.check_parents()?;
        self.check_bindings()?;
        self.check_root()
    }

    /// The count of nodes, and the declarations.
    fn check_size(&self) -> Result<(), Refusal>
        ensures { result_err result ≡ first (of_size self.now.declarations self.now.nodes.items) }
    {
        if self.nodes.is_empty() || self.nodes.len() > 32 {
            Err(Cause::NodeCount.at(0))
        } else if self.some_declaration_over() {
            Err(Cause::OverLimit.at(0))
        } else {
            Ok(())
        }
    }

    fn some_declaration_over(&self) -> bool
        ensures { result ≡ list_any declaration_over self.now.declarations }
    {
        self.declarations
            .iter()
            .any(|declaration| declaration.is_some_and(declaration_over))
    }

    /// What each node breaks by itself.
    #[tactic(auto, using(crate::proofs::Questions::each_asked))]
    fn check_nodes(&self) -> Result<(), Refusal>
        ensures { result_err result ≡ first (in_turn (of_node self.now.declarations self.now.nodes.items) 0 self.now.nodes.items) }
    {
        for (i, node) in self.nodes.iter().enumerate() {
            self.check_node(i, *node)?;
        }
        Ok(())
    }

    fn check_node(&self, i: usize, node: Node) -> Result<(), Refusal>
        ensures { result_err result ≡ first (node_questions self.now.declarations i node) }
    {
        if over_limit(node) {
            Err(Cause::OverLimit.at(i))
        } else if not_below(node, i) {
            Err(Cause::ChildNotBelow.at(i))
        } else if self.not_declared(node) {
            Err(Cause::NotDeclared.at(i))
        } else if bad_interval(node) {
            Err(Cause::BadInterval.at(i))
        } else {
            Ok(())
        }
    }

    fn not_declared(&self, node: Node) -> bool
        ensures { result ≡ not_declared self.now.declarations node }
    {
        match node {
            Node::Atom { predicate, terms } => declaration_of(
                &self.declarations,
                predicate,
            ).is_none_or(|declaration| declaration.count != terms.count),
            _ => false,
        }
    }

    // That the count of nodes is right is required here and twice below: a type that says it would serve these three alone.
    #[tactic(auto, using(crate::proofs::Questions::each_asked))]
    fn check_parents(&self) -> Result<(), Refusal>
        requires { wrong_count self.now.nodes.items ≡ false }
        ensures { result_err result ≡ first (in_turn (of_parents self.now.nodes.items) 0 self.now.nodes.items) }
    {
        // Over numbers and no nodes: it asks how often each number is an operand.
        for i in 0..self.nodes.len() {
            if self.not_one_parent(i) {
                return Err(Cause::NotOneParent.at(i));
            }
        }
        Ok(())
    }

    fn not_one_parent(&self, i: usize) -> bool
        requires { (wrong_count self.now.nodes.items ≡ false) × (i < length self.now.nodes.items) }
        ensures { result ≡ not_one_parent self.now.nodes.items i }
    {
        i + 1 < self.nodes.len() && self.parent_count(i) != 1
    }

    fn parent_count(&self, child: usize) -> usize
        requires { length self.now.nodes.items ≤ 32 }
        ensures { result ≡ parent_count self.now.nodes.items child }
    {
        self.nodes.iter().map(|node| times_in(*node, child)).sum()
    }

    #[tactic(auto, using(crate::proofs::Bound::bound_more, crate::proofs::Questions::each_asked))]
    fn check_bindings(&self) -> Result<(), Refusal>
        ensures { result_err result ≡ first (in_turn (of_bindings self.now.nodes.items) 0 self.now.nodes.items) }
    {
        let mut bound = SmallSet::none();
        for (i, node) in self.nodes.iter().enumerate() {
            let binds = variables_bound(*node);
            if binds.meets(bound) {
                return Err(Cause::BoundBefore.at(i));
            }
            bound = bound.union(binds);
        }
        Ok(())
    }

    /// The free variables of each node, unless the root has one.
    fn check_root(&self) -> Result<FreeSets, Refusal>
        requires count { wrong_count self.now.nodes.items ≡ false }
        requires descends { Descends self.now.nodes.items }
        ensures refusal { result_err result ≡ first (of_root self.now.nodes.items) }
        ensures free { IfOk result (λ s. FreeUpTo s (length self.now.nodes.items) (formulas self.now.nodes.items)) }
    {
        let sets = free_sets(self.nodes.as_slice());
        let root = self.nodes.len() - 1;
        if sets[root].is_empty() {
            Ok(sets)
        } else {
            Err(Cause::FreeAtRoot.at(root))
        }
    }
}

/// The theorem that a table is refused exactly if it does not keep every form rule.
pub fn form_rules_stand()
    ensures { RefusedUnlessFormed }
{}

/// The theorem that in a table that keeps the form rules each node stands for its operator over its children's formulas.
pub fn formulas_stand()
    ensures { FormulasUnfold }
{}
