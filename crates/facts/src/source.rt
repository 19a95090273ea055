//! What answers questions about facts.
ghost use Rattle.std.specs.Prelude.{◌≡◌};
ghost use Rattle.std.specs.Option.{option_map};
ghost use Rattle.sets.specs.Sets.{members};
ghost use Rattle.facts.specs.Facts.{Facts, Found, answerable, given};
ghost use Rattle.facts.specs.Tuples.{places};

use crate::fact::{Query, Tuple};
use refusal::{Cause, Refusal};
use sets::SmallSet;
use table::Value;

/// A source of facts. No call alters it.
// The arguments of `known` and `find` stand apart, not as one value: the subject names these calls.
pub trait FactSource {
    /// The facts that are true at each position, and what is known of which predicates.
    ghost facts: { Self → Facts };

    /// The arguments that must be given of a predicate with a count of arguments, or none where it is not known.
    fn known(&self, predicate: u8, count: u8) -> Option<SmallSet>
        ensures { option_map members result ≡ (facts self.now).needs predicate count };

    /// The least true tuple at a position that answers the query and is greater than the one before.
    fn find(
        &self,
        position: usize,
        query: &Query,
        after: Option<Tuple>,
    ) -> Result<Option<Tuple>, Refusal>
        ensures { Found (facts self.now) position query.now after result };
}

/// Whether a query may be answered by a source that needs these arguments of its predicate, or doesn't know it.
pub fn allow(needed: Option<SmallSet>, query: &Query) -> Result<(), Refusal>
    ensures { result ≡ answerable (option_map members needed) query.now }
{
    let needed = needed.ok_or(Cause::NotKnown.at(usize::from(query.predicate)))?;
    all_given(needed, &query.given.first)
}

/// Ok if each argument that must be given is, and else the refusal at the first that is not.
fn all_given(needed: SmallSet, values: &[Option<Value>; 3]) -> Result<(), Refusal>
    ensures { result ≡ given (members needed) 0 (places values.now) }
{
    (0..3)
        .zip(values)
        .position(|(argument, value)| needed.contains(argument) && value.is_none())
        .map_or(Ok(()), |absent| Err(Cause::ValueAbsent.at(absent)))
}
