//! The piles of layers, over each journal.
use crate::calls::*;
use facts::Calculated;
use journal::{Joined, Journal, Session, Stamp};
use packed::Packed;
use record_table::RecordTable;
use refusal::Cause;
use std::alloc::AllocError;
use std::process::Abort;

/// The first stamp of the positions that are there before a session.
const FORMER: Stamp = 10;

/// The first stamp of the positions that are there before a second session.
const LATER: Stamp = 20;

/// A mark and a fact are a record each.
const RECORDS: Costs = Costs {
    mark: 1,
    fact: [1; 4],
};

/// A unit is a byte: a mark takes five, and a fact three and four for each argument.
const BYTES: Costs = Costs {
    mark: 5,
    fact: [3, 7, 11, 15],
};

impl Case {
    fn of(costs: Costs, short: bool) -> Case {
        Case {
            costs,
            next: 0,
            calculated: false,
            short,
        }
    }

    /// The same, joined with the calculated source.
    fn calculated(self) -> Case {
        Case {
            calculated: true,
            ..self
        }
    }

    /// The same, behind the positions that start at a stamp.
    fn behind(self, stamp: Stamp) -> Case {
        Case {
            next: u64::from(stamp).saturating_add(2),
            ..self
        }
    }

    /// The units of the course, and of the positions before it as many times.
    fn units_behind(&self, times: usize) -> usize {
        self.costs
            .units(2, [0, 1, 1, 1])
            .saturating_mul(times)
            .saturating_add(self.units())
    }
}

impl<A: Abort, J: Journal> Trial<'_, A, J> {
    /// Two positions, at this stamp and the next.
    fn takes_former(&mut self, shown: usize, stamp: Stamp) {
        let facts = [fact(3, 2, [0, 0, 5]), fact(1, 1, [stamp, 0, 0])];
        self.commits(shown, stamp, &facts);
        self.commits(
            shown.saturating_add(1),
            stamp.saturating_add(1),
            &[fact(31, 3, [1, 1, stamp])],
        );
    }

    /// These two positions, at `shown`, are as they were, and the course's position 0 is behind them.
    fn check_former(&self, shown: usize, stamp: Stamp) {
        let second = shown.saturating_add(1);
        assert_eq!(self.rt; self.journal.stamp(shown), Some(stamp));
        assert_eq!(self.rt; self.journal.stamp(second), Some(stamp.saturating_add(1)));
        self.walk(shown, &query(3, 2, [None; 3]), &[[0, 0, 0]]);
        self.walk(shown, &query(1, 1, [None; 3]), &[[stamp, 0, 0]]);
        self.walk(shown, &query(31, 3, [None; 3]), &[]);
        self.walk(shown, &query(0, 0, [None; 3]), &[]);
        self.walk(second, &query(3, 2, [None; 3]), &[]);
        self.walk(second, &query(2, 0, [None; 3]), &[]);
        self.walk(second, &query(31, 3, [None; 3]), &[[1, 1, stamp]]);
    }

    /// The course was run behind the first `base` positions.
    fn check_left(&self, base: usize) {
        self.check_over(base.saturating_add(4));
        assert_eq!(self.rt; self.journal.stamp(base), Some(1000));
        self.check_walks(base);
    }
}

impl<'a, A: Abort, J: Journal + Drop> Trial<'a, A, J> {
    /// The course in a layer that is joined, and taken off again.
    fn joined(self) -> Trial<'a, A, J> {
        let Trial { rt, journal, case } = self;
        let mut top = Trial {
            rt,
            journal: Joined::new(journal, Calculated),
            case: case.calculated(),
        };
        top.run_course();
        let (journal, _) = top.journal.end();
        let left = Trial { rt, journal, case };
        left.check_left(0);
        left.check_not_calculated();
        left
    }

    /// The course in a session over a journal that shows nothing and takes two positions before, and taken off again.
    fn in_session(mut self, stamp: Stamp) -> Trial<'a, A, J> {
        self.takes_former(0, stamp);
        let Trial { rt, journal, case } = self;
        let mut top = Trial {
            rt,
            journal: Session::new(journal),
            case: case.behind(stamp),
        };
        top.run_course();
        let journal = top.journal.end();
        let left = Trial { rt, journal, case };
        left.check_left(2);
        left.check_former(0, stamp);
        left
    }

    /// A session has no facts, calculated ones neither, at a position whose number below is no `usize`.
    fn check_far(self) -> Trial<'a, A, J> {
        let Trial { rt, journal, case } = self;
        let equal = query(32, 2, [Some(5), None, None]);
        let top = Trial {
            rt,
            journal: Session::new(journal),
            case,
        };
        assert_eq!(rt; top.journal.shown(), 0);
        top.walk(0, &equal, &[[5, 5, 0]]);
        top.walk(usize::MAX, &equal, &[]);
        let journal = top.journal.end();
        Trial { rt, journal, case }
    }

    fn session_over_joined(self) {
        let Trial { rt, journal, case } = self;
        let under = Trial {
            rt,
            journal: Joined::new(journal, Calculated),
            case: case.calculated(),
        };
        let (journal, _) = under.in_session(FORMER).check_far().journal.end();
        let left = Trial { rt, journal, case };
        left.check_left(2);
        left.check_former(0, FORMER);
        left.check_not_calculated();
    }

    fn joined_over_session(mut self) {
        self.takes_former(0, FORMER);
        let Trial { rt, journal, case } = self;
        let under = Trial {
            rt,
            journal: Session::new(journal),
            case: case.behind(FORMER),
        };
        let journal = under.joined().journal.end();
        let left = Trial { rt, journal, case };
        left.check_left(2);
        left.check_former(0, FORMER);
    }

    fn session_over_session(mut self) {
        self.takes_former(0, FORMER);
        let Trial { rt, journal, case } = self;
        let under = Trial {
            rt,
            journal: Session::new(journal),
            case,
        };
        let journal = under.in_session(LATER).journal.end();
        let left = Trial { rt, journal, case };
        left.check_left(4);
        left.check_former(0, FORMER);
        left.check_former(2, LATER);
    }
}

/// A new journal with the units of the course, and of the positions before it as many times.
fn trial<'a, A: Abort, J: Journal, F: Fn(usize) -> Result<J, AllocError>>(
    rt: &'a A,
    make: &F,
    case: Case,
    times: usize,
) -> Result<Trial<'a, A, J>, AllocError>
    requires { F.IsAlwaysCallable make.now }
{
    let journal = make(case.units_behind(times))?;
    Ok(Trial { rt, journal, case })
}

fn bare_and_joined<A: Abort, J: Journal + Drop, F: Fn(usize) -> Result<J, AllocError>>(
    rt: &A,
    costs: Costs,
    make: F,
) -> Result<(), AllocError>
    requires { F.IsAlwaysCallable make }
{
    for short in [false, true] {
        let case = Case::of(costs, short);
        trial(rt, &make, case, 0)?.run_course();
        let _ = trial(rt, &make, case, 0)?.joined();
    }
    Ok(())
}

fn under_sessions<A: Abort, J: Journal + Drop, F: Fn(usize) -> Result<J, AllocError>>(
    rt: &A,
    costs: Costs,
    make: F,
) -> Result<(), AllocError>
    requires { F.IsAlwaysCallable make }
{
    for short in [false, true] {
        let case = Case::of(costs, short);
        let _ = trial(rt, &make, case, 1)?.in_session(FORMER);
        trial(rt, &make, case, 1)?.session_over_joined();
        trial(rt, &make, case, 1)?.joined_over_session();
        trial(rt, &make, case, 2)?.session_over_session();
    }
    Ok(())
}

#[test]
fn record_table_bare_and_joined(rt: HostRuntime) -> Result<(), AllocError> {
    let heap = rt.alloc();
    assert_eq!(rt; RecordTable::new(heap, usize::MAX)?.free(), 65_536);
    bare_and_joined(&rt, RECORDS, |units| RecordTable::new(heap, units))
}

#[test]
fn record_table_under_sessions(rt: HostRuntime) -> Result<(), AllocError> {
    let heap = rt.alloc();
    under_sessions(&rt, RECORDS, |units| RecordTable::new(heap, units))
}

#[test]
fn packed_bare_and_joined(rt: HostRuntime) -> Result<(), AllocError> {
    let heap = rt.alloc();
    assert_eq!(rt; Packed::new(heap, usize::MAX)?.free(), 65_536);
    bare_and_joined(&rt, BYTES, |units| Packed::new(heap, units))
}

#[test]
fn packed_under_sessions(rt: HostRuntime) -> Result<(), AllocError> {
    let heap = rt.alloc();
    under_sessions(&rt, BYTES, |units| Packed::new(heap, units))
}

/// The causes for which journals and sources refuse, by the numbers that a club sees.
const NUMBERS: [(Cause, u8); 6] = [
    (Cause::BadFact, 12),
    (Cause::StampTooLow, 13),
    (Cause::NoRoom, 14),
    (Cause::NotShown, 16),
    (Cause::NotKnown, 18),
    (Cause::ValueAbsent, 19),
];

#[test]
fn causes_have_their_numbers(rt: HostRuntime) {
    for (cause, number) in NUMBERS {
        assert_eq!(rt; cause.number(), number);
    }
}

/// Two positions and a late fact of the first, in the order of the calls, numbers with their low byte first. The head of
/// a fact is its predicate and 32 for each argument.
const WRITTEN: [u8; 31] = [
    255, 232, 3, 0, 0, 67, 0, 0, 5, 0, 0, 0, 255, 255, 255, 255, 255, 0, 0, 1, 0, 63, 1, 0, 2, 1,
    0, 0, 0, 0, 0,
];

#[test]
fn packed_bytes(rt: HostRuntime) -> Result<(), AllocError> {
    let mut packed = Trial {
        rt: &rt,
        journal: Packed::new(rt.alloc(), 33)?,
        case: Case::of(BYTES, false),
    };
    assert!(rt; packed.journal.used().is_empty());
    packed.commits(0, 1000, &[fact(3, 2, [5, 4_294_967_295, 9])]);
    packed.commits(1, 65_536, &[fact(31, 1, [258, 9, 9])]);
    packed.adds(0, fact(0, 0, [9, 9, 9]));
    // Two bytes are left, and the fact takes three.
    packed.refuses_late(0, fact(0, 0, [9, 9, 9]), Cause::NoRoom.at(2));
    assert_eq!(rt; packed.journal.used(), &WRITTEN[..]);
    Ok(())
}
