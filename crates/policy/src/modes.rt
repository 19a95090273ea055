//! The recursive mode checks over the node table.
ghost use Rattle.std.specs.Prelude.{◌≡◌, ℕ, false, List, is_ok};
ghost use Rattle.sets.specs.Sets.{members};
ghost use Rattle.table.specs.Formula.{Formula, atom, or, exists, forall, formulas, formula_at, formula_of};
ghost use Rattle.table.specs.Arguments.{kept};
ghost use Rattle.table.specs.Form.{not_below};
ghost use Rattle.policy.specs.Modes.{same_outside, binds_all, start_of, searching, searchable, buildable, walk, walk_sides, if_only, over_past, cached, WalkTells};
ghost use Rattle.policy.specs.Examples.{ExamplesHold};
ghost use Rattle.policy.specs.declared.modes.Mode.TheVariants.{Search};

use crate::outline::Outline;
use sets::SmallSet;
use table::{Node, Terms};

/// What a formula is checked for: that it can be searched, or that its rows can be built.
// An enum and no closures: the rules are stated for these two modes, and the walk tells them apart in two places.
#[derive(Clone, Copy, PartialEq, Eq)]
pub(crate) enum Mode {
    Search,
    Build,
}

impl Mode {
    /// Ok in a search; rows can't be built of the operator at the node n.
    fn only_search(self, n: usize) -> Result<(), usize>
        ensures { result ≡ if_only (searching self) n }
    {
        if_only(self == Mode::Search, n)
    }

    /// What is known where a prev, once or since starts.
    fn start(self, known: SmallSet) -> SmallSet
        ensures { members result ≡ start_of self (members known) }
    {
        match self {
            Mode::Search => known,
            Mode::Build => SmallSet::none(),
        }
    }
}

fn same_outside(known: SmallSet, left: SmallSet, right: SmallSet) -> bool
    ensures { result ≡ same_outside (members known) (members left) (members right) }
{
    let left = left.minus(known);
    let right = right.minus(known);
    left.within(right) && right.within(left)
}

fn binds_all(known: SmallSet, variables: SmallSet, left: SmallSet, right: SmallSet) -> bool
    ensures { result ≡ binds_all (members known) (members variables) (members left) (members right) }
{
    variables.within(left) && left.union(right).within(known.union(variables))
}

/// Ok where the condition holds, else the node that it is asked of.
// It takes a flag, as `ok_or` takes an `Option`: no step is chosen by it.
fn if_only(holds: bool, n: usize) -> Result<(), usize>
    ensures { result ≡ if_only holds n }
{
    holds.then_some(()).ok_or(n)
}

fn is_over_past(node: Node) -> bool
    ensures { (fs : List Formula) (n : ℕ) → result ≡ over_past (formula_of fs n node) }
{
    matches!(
        node,
        Node::Prev { .. } | Node::Once { .. } | Node::Since { .. }
    )
}

/// A walk over a formula that checks it in one mode. It answers the node at which the check first fails: a place, and
/// no refusal yet, as in the definitions.
#[derive(Clone, Copy)]
struct Walk<'a> {
    outline: Outline<'a>,
    mode: Mode,
}

// Each step has its node's number, operands and known variables as parameters: all of them change at each step.
impl Walk<'_> {
    /// The walk from the node n, with these variables known; past the last node nothing fails.
    #[cycle(walk)]
    fn from_node(self, n: usize, known: SmallSet) -> Result<(), usize>
        ensures { result ≡ walk self.entry.mode self.entry.outline.declarations.now (formula_at self.entry.outline.nodes.now n) (members known) }
    {
        let Some(node) = self.outline.node(n) else {
            return Ok(());
        };
        self.through(n, node, known)
    }

    /// The same at a node that is read already.
    #[cycle(walk)]
    fn through(self, n: usize, node: Node, known: SmallSet) -> Result<(), usize>
        requires { not_below n node ≡ false }
        ensures { result ≡ walk self.entry.mode self.entry.outline.declarations.now (formula_of (formulas self.entry.outline.nodes.now) n node) (members known) }
    {
        match node {
            Node::True | Node::False => Ok(()),
            Node::Atom { predicate, terms } => self.through_atom(n, predicate, terms, known),
            Node::And { left, right } => {
                self.from_node(left, known)?;
                self.from_node(right, known.union(self.outline.free_of(left)))
            }
            Node::Or { left, right } => self.through_or(n, left, right, known),
            Node::Exists { variables, body } => self.through_exists(n, variables, body, known),
            Node::Forall {
                variables,
                left,
                right,
            } => self.through_forall(n, variables, left, right, known),
            Node::Prev { body, .. } | Node::Once { body, .. } => {
                self.from_node(body, self.mode.start(known))
            }
            Node::Next { body, .. } | Node::Event { body, .. } => {
                self.mode.only_search(n)?;
                self.from_node(body, known)
            }
            Node::Hist { body, .. } | Node::Always { body, .. } => {
                self.mode.only_search(n)?;
                self.from_node(body, known)?;
                if_only(self.outline.free_of(body).within(known), n)
            }
            Node::Since { left, right, .. } => {
                self.through_sides(n, left, right, self.mode.start(known))
            }
            Node::Until { left, right, .. } => {
                self.mode.only_search(n)?;
                self.through_sides(n, left, right, known)
            }
        }
    }

    /// An atom, whose variables that must be given are known.
    fn through_atom(
        self,
        n: usize,
        predicate: u8,
        terms: Terms,
        known: SmallSet,
    ) -> Result<(), usize>
        ensures { result ≡ walk self.entry.mode self.entry.outline.declarations.now (atom n predicate (kept terms)) (members known) }
    {
        let needed = self.outline.needed(predicate, terms);
        if_only(needed.within(known), n)
    }

    /// Left, then right, whose free variables are the same outside those known.
    #[cycle(walk)]
    fn through_or(self, n: usize, left: usize, right: usize, known: SmallSet) -> Result<(), usize>
        ensures { result ≡ walk self.entry.mode self.entry.outline.declarations.now (or n (formula_at self.entry.outline.nodes.now left) (formula_at self.entry.outline.nodes.now right)) (members known) }
    {
        self.from_node(left, known)?;
        self.from_node(right, known)?;
        let left = self.outline.free_of(left);
        let right = self.outline.free_of(right);
        if_only(same_outside(known, left, right), n)
    }

    /// The body, of which the variables bound are free.
    #[cycle(walk)]
    fn through_exists(
        self,
        n: usize,
        variables: SmallSet,
        body: usize,
        known: SmallSet,
    ) -> Result<(), usize>
        ensures { result ≡ walk self.entry.mode self.entry.outline.declarations.now (exists n (members variables) (formula_at self.entry.outline.nodes.now body)) (members known) }
    {
        self.from_node(body, known)?;
        if_only(variables.within(self.outline.free_of(body)), n)
    }

    /// Left, then right with the variables bound known.
    #[cycle(walk)]
    fn through_forall(
        self,
        n: usize,
        variables: SmallSet,
        left: usize,
        right: usize,
        known: SmallSet,
    ) -> Result<(), usize>
        ensures { result ≡ walk self.entry.mode self.entry.outline.declarations.now (forall n (members variables) (formula_at self.entry.outline.nodes.now left) (formula_at self.entry.outline.nodes.now right)) (members known) }
    {
        self.from_node(left, known)?;
        self.from_node(right, known.union(variables))?;
        let left = self.outline.free_of(left);
        let right = self.outline.free_of(right);
        if_only(binds_all(known, variables, left, right), n)
    }

    /// The sides of a since or an until: right first, then left with right's variables known.
    #[cycle(walk)]
    fn through_sides(
        self,
        n: usize,
        left: usize,
        right: usize,
        known: SmallSet,
    ) -> Result<(), usize>
        ensures { result ≡ walk_sides self.entry.mode self.entry.outline.declarations.now n (formula_at self.entry.outline.nodes.now left) (formula_at self.entry.outline.nodes.now right) (members known) }
    {
        self.from_node(right, known)?;
        let after = known.union(self.outline.free_of(right));
        self.from_node(left, after)?;
        if_only(self.outline.free_of(left).within(after), n)
    }
}

impl Outline<'_> {
    /// Ok if the node n is searchable with these variables known, else the node at which the walk first fails.
    #[tactic(auto, using(crate::proofs::Walked::walk_tells))]
    pub(crate) fn searchable(self, n: usize, known: SmallSet) -> Result<(), usize>
        ensures walked { result ≡ walk Search self.entry.declarations.now (formula_at self.entry.nodes.now n) (members known) }
        ensures tells { is_ok result ≡ searchable self.entry.declarations.now (members known) (formula_at self.entry.nodes.now n) }
    {
        let walk = Walk {
            outline: self,
            mode: Mode::Search,
        };
        walk.from_node(n, known)
    }

    /// Whether the rows of the node n can be built with these variables known.
    #[tactic(auto, using(crate::proofs::Walked::walk_tells))]
    fn buildable(self, n: usize, known: SmallSet) -> bool
        ensures { result ≡ buildable self.entry.declarations.now (members known) (formula_at self.entry.nodes.now n) }
    {
        let walk = Walk {
            outline: self,
            mode: Mode::Build,
        };
        walk.from_node(n, known).is_ok()
    }

    /// Whether the node n keeps rows: a prev, once or since that is buildable.
    pub(crate) fn is_cached(self, n: usize) -> bool
        ensures { result ≡ cached self.entry.declarations.now (formula_at self.entry.nodes.now n) }
    {
        self.node(n).is_some_and(is_over_past) && self.buildable(n, SmallSet::none())
    }
}

/// The theorem that the walk fails exactly if the rules of modes do not hold.
#[tactic(auto, using(crate::proofs::Walked::walk_tells))]
pub fn walk_stands()
    ensures { WalkTells }
{}

/// The theorem that the worked examples of modes, caching and waits come out as they should.
pub fn examples_stand()
    ensures { ExamplesHold }
{}
