//! The arguments of an atom.
ghost use Rattle.std.specs.Prelude.{◌≡◌, true};
ghost use Rattle.std.specs.List.{list_any};
ghost use Rattle.sets.specs.Sets.{members};
ghost use Rattle.table.specs.Arguments.{kept};
ghost use Rattle.table.specs.Form.{term_over};
ghost use Rattle.table.specs.Formula.{variable_in, variables_at};

use crate::node::{Term, Terms};
use sets::SmallSet;

impl Term {
    /// The variable that this term is, if it is one.
    fn variables(&self) -> SmallSet
        ensures { members result ≡ variable_in true self.now }
    {
        match *self {
            Term::Variable(variable) => SmallSet::single(variable),
            Term::Constant(_) => SmallSet::none(),
        }
    }
}

impl Terms {
    /// The variables at the arguments that stand at the given places.
    #[tactic(auto, using(crate::proofs::Gather::gathers))]
    pub fn variables_at(&self, places: SmallSet) -> SmallSet
        ensures { members result ≡ variables_at (members places) 0 (kept self.now) }
    {
        let mut found = SmallSet::none();
        for (place, term) in self.kept().iter().enumerate() {
            if places.contains(place as u8) {
                found = found.union(term.variables());
            }
        }
        found
    }
}

/// Whether a variable is numbered over 7.
pub(crate) fn some_over(terms: &[Term]) -> bool
    ensures { result ≡ list_any term_over terms.now }
{
    terms
        .iter()
        .any(|term| matches!(*term, Term::Variable(8..)))
}
