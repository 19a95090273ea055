//! What a table is made of, as a caller hands it over: nothing here is checked yet.
use crate::arguments::Arguments;
use sets::SmallSet;

/// A value of the domain: a runner, a run, a track, by number.
pub type Value = u32;

/// An argument of an atom.
#[derive(Clone, Copy, PartialEq, Eq, Debug)]
pub enum Term {
    Variable(u8),
    Constant(Value),
}

/// The arguments of an atom.
pub type Terms = Arguments<Term>;

/// The seconds from `lo` to `hi`, both included; no `hi` is no upper end.
#[derive(Clone, Copy, PartialEq, Eq, Debug)]
pub struct Interval {
    pub lo: u32,
    pub hi: Option<u32>,
}

/// A predicate's count of arguments, and which of these must be given, from 0.
#[derive(Clone, Copy, PartialEq, Eq, Debug)]
pub struct Declaration {
    pub count: u8,
    pub given: SmallSet,
}

/// A node of a formula. Its operands are named by their numbers in the table.
#[derive(Clone, Copy, PartialEq, Eq, Debug)]
pub enum Node {
    True,
    False,
    Atom {
        predicate: u8,
        terms: Terms,
    },
    And {
        left: usize,
        right: usize,
    },
    Or {
        left: usize,
        right: usize,
    },
    Exists {
        variables: SmallSet,
        body: usize,
    },
    Forall {
        variables: SmallSet,
        left: usize,
        right: usize,
    },
    Prev {
        interval: Interval,
        body: usize,
    },
    Once {
        interval: Interval,
        body: usize,
    },
    Hist {
        interval: Interval,
        body: usize,
    },
    Next {
        interval: Interval,
        body: usize,
    },
    Event {
        interval: Interval,
        body: usize,
    },
    Always {
        interval: Interval,
        body: usize,
    },
    Since {
        interval: Interval,
        left: usize,
        right: usize,
    },
    Until {
        interval: Interval,
        left: usize,
        right: usize,
    },
}
