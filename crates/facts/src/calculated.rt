//! A source that calculates its facts: relations of two numbers, the same at all positions.
ghost use Rattle.std.specs.Prelude.{◌≡◌, Some, None, slice_index_or};
ghost use Rattle.std.specs.Option.{ok_or};
ghost use Rattle.refusal.specs.Causes.{refusal_at};
ghost use Rattle.refusal.specs.declared.Cause.TheVariants.{NotKnown};
ghost use Rattle.sets.specs.Sets.{members};
ghost use Rattle.facts.specs.Calculated.{calculated, relation_of, relates, needs_of, Chosen};
ghost use Rattle.facts.specs.Tried.{pair_of, second, first, first_sibling};

use crate::fact::{Query, Tuple};
use crate::sought::Sought;
use crate::source::{FactSource, allow};
use refusal::{Cause, Refusal};
use sets::SmallSet;
use table::Value;

#[derive(Clone, Copy)]
pub(crate) enum Relation {
    Equal,
    Less,
    Class,
    Sibling,
}

/// The relation of a predicate.
impl TryFrom<u8> for Relation {
    type Error = Refusal;

    ghost try_from_gives = { λ predicate relation. relation ≡ ok_or (relation_of predicate) (refusal_at NotKnown predicate) };

    fn try_from(predicate: u8) -> Result<Relation, Refusal> {
        match predicate {
            32 => Ok(Relation::Equal),
            33 => Ok(Relation::Less),
            34 => Ok(Relation::Class),
            35 => Ok(Relation::Sibling),
            _ => Err(Cause::NotKnown.at(usize::from(predicate))),
        }
    }
}

impl Relation {
    fn needed(self) -> SmallSet
        ensures { members result ≡ needs_of self }
    {
        match self {
            Relation::Less => SmallSet::below(2),
            _ => SmallSet::single(0),
        }
    }

    fn relates(self, x: Value, y: Value) -> bool
        ensures { result ≡ relates self x y }
    {
        match self {
            Relation::Equal => y == x,
            Relation::Less => x < y,
            Relation::Class => y == x / 16_777_216,
            Relation::Sibling => y / 256 == x / 256,
        }
    }

    /// The y that is given, or else the least that may be related to x, past the tuple before.
    fn second(self, x: Value, sought: &Sought) -> Value
        ensures { result ≡ second self x (slice_index_or sought.now.query.given.first 1 None) sought.now.after }
    {
        sought.query.given.first[1].unwrap_or_else(|| self.first(x, sought.after))
    }

    fn first(self, x: Value, after: Option<Tuple>) -> Value
        ensures { result ≡ first self x after }
    {
        match self {
            Relation::Class => x / 16_777_216,
            Relation::Sibling => first_sibling(x, after),
            _ => x,
        }
    }

    /// The least pair that answers the query and is greater than the one before.
    fn least(self, sought: &Sought) -> Option<Tuple>
        ensures { Chosen self sought.now.query sought.now.after result }
    {
        let x = sought.query.given.first[0]?;
        let y = self.second(x, sought);
        self.pair(x, y, sought)
    }

    /// The pair of x and y, where it answers the query and is greater than the one before.
    fn pair(self, x: Value, y: Value, sought: &Sought) -> Option<Tuple>
        ensures { result ≡ pair_of self x y sought.now.query sought.now.after }
    {
        (self.relates(x, y) && sought.fits(&[x, y])).then_some([x, y, 0])
    }
}

/// The first of the block of 256 that x is in, past the tuple before.
fn first_sibling(x: Value, after: Option<Tuple>) -> Value
    ensures { result ≡ first_sibling x after }
{
    let least = x / 256 * 256;
    // No `map_or`: a closure that takes an array by value gets no contract, and the proof didn't close.
    match after {
        Some(tuple) if tuple[0] == x && tuple[1] >= least => tuple[1].saturating_add(1),
        _ => least,
    }
}

/// Equal, less, class and sibling: the predicates 32 to 35.
#[derive(Clone, Copy)]
pub struct Calculated;

impl FactSource for Calculated {
    ghost facts = { λ _. calculated };

    fn known(&self, predicate: u8, count: u8) -> Option<SmallSet> {
        let relation = Relation::try_from(predicate).ok()?;
        (count == 2).then_some(relation.needed())
    }

    fn find(
        &self,
        _position: usize,
        query: &Query,
        after: Option<Tuple>,
    ) -> Result<Option<Tuple>, Refusal> {
        allow(self.known(query.predicate, query.given.count), query)?;
        let relation = Relation::try_from(query.predicate)?;
        let sought = Sought {
            query: *query,
            after,
        };
        Ok(relation.least(&sought))
    }
}
