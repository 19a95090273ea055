//! Single calls of a journal under test, and what is expected of them.
use facts::{Fact, FactSource, Query, Tuple};
use journal::{Journal, Stamp};
use refusal::Refusal;
use std::process::Abort;
use table::{Arguments, Value};

/// The units of a mark, and of a fact by its count of arguments.
#[derive(Clone, Copy)]
pub(crate) struct Costs {
    pub(crate) mark: usize,
    pub(crate) fact: [usize; 4],
}

impl Costs {
    /// The units of some marks, and of some facts of each count.
    pub(crate) fn units(&self, marks: usize, facts: [usize; 4]) -> usize {
        let of_marks = self.mark.saturating_mul(marks);
        self.fact
            .iter()
            .zip(facts)
            .fold(of_marks, |sum, (cost, count)| {
                sum.saturating_add(cost.saturating_mul(count))
            })
    }

    fn of_fact(&self, fact: &Fact) -> usize {
        self.fact[usize::from(fact.values.count.min(3))]
    }

    fn of_position(&self, facts: &[Fact]) -> usize {
        facts.iter().fold(self.mark, |sum, fact| {
            sum.saturating_add(self.of_fact(fact))
        })
    }
}

/// A journal that the course is run on. It shows nothing at first.
#[derive(Clone, Copy)]
pub(crate) struct Case {
    pub(crate) costs: Costs,
    /// The least stamp of the first commit.
    pub(crate) next: u64,
    /// Whether the predicates from 32 up are those of the calculated source.
    pub(crate) calculated: bool,
    /// Whether one unit is lacking for the whole course.
    pub(crate) short: bool,
}

// `fact` and `query` stay two: they build two types.
pub(crate) fn fact(predicate: u8, count: u8, first: [Value; 3]) -> Fact {
    Fact {
        predicate,
        values: Arguments { count, first },
    }
}

pub(crate) fn query(predicate: u8, count: u8, first: [Option<Value>; 3]) -> Query {
    Query {
        predicate,
        given: Arguments { count, first },
    }
}

/// A journal under test, and what is known of it before. A failed assertion stops `rt`.
#[derive(Drop)]
pub(crate) struct Trial<'a, A: Abort, J: Journal> {
    pub(crate) rt: &'a A,
    pub(crate) journal: J,
    pub(crate) case: Case,
}

impl<A: Abort, J: Journal> Trial<'_, A, J> {
    /// The positions shown, the least next stamp and the free units.
    pub(crate) fn check_state(&self, shown: usize, next: u64, free: usize) {
        assert_eq!(self.rt; self.journal.shown(), shown, "shown");
        assert_eq!(self.rt; self.journal.least_next_stamp(), next, "least next stamp");
        assert_eq!(self.rt; self.journal.free(), free, "free");
    }

    /// A commit that is taken as the position `shown`, and paid to the unit.
    pub(crate) fn commits(&mut self, shown: usize, stamp: Stamp, facts: &[Fact]) {
        assert_eq!(self.rt; self.journal.shown(), shown);
        assert_eq!(self.rt; self.journal.stamp(shown), None);
        let free = self.journal.free();
        assert_eq!(self.rt; self.journal.commit(stamp, facts), Ok(()));
        let left = self.journal.free();
        let paid = self.case.costs.of_position(facts);
        assert_eq!(self.rt; left.saturating_add(paid), free, "units of a position");
        let next = u64::from(stamp).saturating_add(1);
        self.check_state(shown.saturating_add(1), next, left);
        assert_eq!(self.rt; self.journal.stamp(shown), Some(stamp));
        assert_eq!(self.rt; self.journal.stamp(shown.saturating_add(1)), None);
    }

    /// A late fact that is taken, and paid to the unit.
    pub(crate) fn adds(&mut self, position: usize, fact: Fact) {
        let shown = self.journal.shown();
        let next = self.journal.least_next_stamp();
        let free = self.journal.free();
        assert_eq!(self.rt; self.journal.late(position, fact), Ok(()));
        let left = self.journal.free();
        let paid = self.case.costs.of_fact(&fact);
        assert_eq!(self.rt; left.saturating_add(paid), free, "units of a fact");
        self.check_state(shown, next, left);
    }

    /// A call that is refused so, and changes nothing that can be asked without a find.
    fn refuses<F: FnOnce(&mut J) -> Result<(), Refusal>>(&mut self, call: F, wanted: Refusal)
        requires { F.IsAlwaysCallable call }
    {
        let shown = self.journal.shown();
        let next = self.journal.least_next_stamp();
        let free = self.journal.free();
        assert_eq!(self.rt; call(&mut self.journal), Err(wanted));
        self.check_state(shown, next, free);
    }

    pub(crate) fn refuses_commit(&mut self, stamp: Stamp, facts: &[Fact], wanted: Refusal) {
        self.refuses(|j| j.commit(stamp, facts), wanted);
    }

    pub(crate) fn refuses_late(&mut self, position: usize, fact: Fact, wanted: Refusal) {
        self.refuses(|j| j.late(position, fact), wanted);
    }

    /// A find that is refused so, at a position shown and beyond all.
    pub(crate) fn refuses_find(&self, query: &Query, wanted: Refusal) {
        for position in [0, 1_000_000, usize::MAX] {
            assert_eq!(self.rt; self.journal.find(position, query, None), Err(wanted));
        }
    }

    /// What a find answers, and that what stands behind the count doesn't matter.
    pub(crate) fn finds(
        &self,
        position: usize,
        query: &Query,
        after: Option<Tuple>,
        wanted: Option<Tuple>,
    ) {
        assert_eq!(self.rt; self.journal.find(position, query, after), Ok(wanted));
        let count = query.given.count;
        let noisy = query_with_noise(query);
        let noise = [7, 4294967295, if count < 2 { 9 } else { 4294967295 }];
        let after = after.map(|tuple| behind(count, tuple, noise));
        assert_eq!(self.rt;
            self.journal.find(position, &noisy, after),
            Ok(wanted),
            "what stands behind the count matters"
        );
    }

    /// A walk over all tuples that answer: each answer is the `after` of the next call, till there is none.
    pub(crate) fn walk(&self, position: usize, query: &Query, tuples: &[Tuple]) {
        let mut after = None;
        for tuple in tuples {
            self.finds(position, query, after, Some(*tuple));
            after = Some(*tuple);
        }
        self.finds(position, query, after, None);
    }
}

/// The first `count` items, and other items behind them.
fn behind<T: Copy>(count: u8, items: [T; 3], others: [T; 3]) -> [T; 3] {
    let kept = usize::from(count).min(3);
    let mut mixed = others;
    mixed[..kept].copy_from_slice(&items[..kept]);
    mixed
}

/// The same question, with values given behind the count.
fn query_with_noise(query: &Query) -> Query {
    let Arguments { count, first } = query.given;
    let first = behind(count, first, [Some(1), Some(0), Some(2)]);
    Query {
        predicate: query.predicate,
        given: Arguments { count, first },
    }
}
