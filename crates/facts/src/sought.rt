//! What a find asks for, and one step of a scan for it.
ghost use Rattle.std.specs.Prelude.{◌≡◌};
ghost use Rattle.facts.specs.Tuples.{places, agrees, fits, past};
ghost use Rattle.facts.specs.Scan.{better};

use crate::fact::{Fact, Query, Tuple, first_of};
use table::Value;

/// A query, and the tuple before: what is sought is the least tuple that answers the query and is greater.
#[derive(Clone, Copy, Debug, PartialEq, Eq)]
pub struct Sought {
    pub query: Query,
    pub after: Option<Tuple>,
}

impl Sought {
    /// Whether these arguments agree with what is given and are greater than the tuple before.
    pub(crate) fn fits(&self, arguments: &[Value]) -> bool
        ensures { result ≡ fits self.now.query self.now.after arguments.now }
    {
        agrees(&self.query.given.first, arguments) && is_past(self.after, arguments)
    }

    /// The best tuple so far, where a further fact may answer with a lesser one.
    pub fn nearer(&self, best: Option<Tuple>, fact: &Fact) -> Option<Tuple>
        ensures { result ≡ better self.now.query self.now.after best fact.now }
    {
        if !fact.answers(self) {
            return best;
        }
        let tuple = fact.tuple();
        Some(tuple.min(best.unwrap_or(tuple)))
    }
}

/// Whether the arguments have the values that are given, place by place.
fn agrees(given: &[Option<Value>; 3], arguments: &[Value]) -> bool
    ensures { result ≡ agrees (places given.now) arguments.now }
{
    given.iter().zip(arguments).all(|(given, value)| given.is_none_or(|wanted| wanted == *value))
}

/// Whether the arguments are greater than the tuple before, of which as many values count.
fn is_past(after: Option<Tuple>, arguments: &[Value]) -> bool
    ensures { result ≡ past after arguments.now }
{
    after
        .as_ref()
        .is_none_or(|tuple| first_of(tuple, arguments.len()) < arguments)
}
