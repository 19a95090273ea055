//! Facts, questions about facts, and the tuples that answer them.
ghost use Rattle.std.specs.Prelude.{◌≡◌, take};
ghost use Rattle.facts.specs.Tuples.{three, arguments, padded, answers, recordable};

use crate::sought::Sought;
use table::{Arguments, Value};

/// The arguments of a fact, as many as its count, and 0 behind them.
pub type Tuple = [Value; 3];

/// A fact: a predicate and its arguments.
#[derive(Clone, Copy, Debug, PartialEq, Eq)]
pub struct Fact {
    pub predicate: u8,
    pub values: Arguments<Value>,
}

/// A question about the facts of a predicate, of whose arguments some are given.
#[derive(Clone, Copy, Debug, PartialEq, Eq)]
pub struct Query {
    pub predicate: u8,
    pub given: Arguments<Option<Value>>,
}

impl Fact {
    /// The arguments.
    pub fn arguments(&self) -> &[Value]
        ensures { result.now ≡ arguments self.now }
    {
        self.values.kept()
    }

    /// The arguments as a tuple.
    pub fn tuple(&self) -> Tuple
        ensures { result ≡ padded (arguments self.now) }
    {
        let arguments = self.arguments();
        let mut tuple = [0; 3];
        tuple[..arguments.len()].copy_from_slice(arguments);
        tuple
    }

    /// Whether a journal takes the fact: a predicate from 0 to 31 and at most three arguments.
    pub fn is_recordable(&self) -> bool
        ensures { result ≡ recordable self.now }
    {
        self.predicate < 32 && self.values.count < 4
    }

    /// Whether the fact answers a query with a tuple greater than the one before.
    pub fn answers(&self, sought: &Sought) -> bool
        ensures { result ≡ answers sought.now.query sought.now.after self.now }
    {
        self.predicate == sought.query.predicate
            && self.values.count == sought.query.given.count
            && sought.fits(self.arguments())
    }
}

/// The first `count` values, or all three.
// A function beside `Arguments::kept`: a tuple has no count of its own.
pub(crate) fn first_of(values: &[Value; 3], count: usize) -> &[Value]
    ensures { result.now ≡ take count (three values.now) }
{
    &values[..count.min(3)]
}
