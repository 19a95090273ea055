//! The same calls for every journal, and what is expected of each.
use crate::calls::*;
use facts::{Fact, FactSource, Tuple};
use journal::{Journal, Stamp};
use refusal::Cause;
use std::process::Abort;
use table::{SmallSet, Value};

const TOP: Value = 4294967295;

/// No argument is given.
const ANY: [Option<Value>; 3] = [None; 3];

impl Case {
    /// The units of the course: all but the last position, and that with one fact of one argument.
    pub(crate) fn units(&self) -> usize {
        let last = self.costs.units(1, [0, 1, 0, 0]);
        self.costs
            .units(3, [3, 5, 9, 4])
            .saturating_add(last)
            .saturating_sub(usize::from(self.short))
    }
}

/// Equal facts, facts out of order, and values behind the counts.
fn first_facts() -> [Fact; 15] {
    [
        fact(3, 2, [5, 7, 1]),
        fact(3, 2, [5, 2, TOP]),
        fact(31, 3, [1, 2, 3]),
        fact(3, 2, [4, 9, 0]),
        fact(3, 2, [5, 7, 8]),
        fact(0, 0, [1, 2, 3]),
        fact(3, 2, [TOP, 0, 0]),
        fact(3, 2, [0, TOP, 0]),
        fact(1, 1, [TOP, 6, 6]),
        fact(1, 1, [6, 0, 0]),
        fact(1, 1, [0, TOP, TOP]),
        fact(3, 1, [5, 7, 0]),
        fact(31, 3, [1, 2, 0]),
        fact(31, 3, [1, 0, 3]),
        fact(0, 0, [4, 4, 4]),
    ]
}

/// Position, predicate, count, what is given, and the tuples that answer, in rising order.
type Walk = (usize, u8, u8, [Option<Value>; 3], &'static [Tuple]);

static WALKS: [Walk; 24] = [
    (
        0,
        3,
        2,
        ANY,
        &[
            [0, TOP, 0],
            [4, 9, 0],
            [5, 2, 0],
            [5, 3, 0],
            [5, 7, 0],
            [TOP, 0, 0],
        ],
    ),
    (
        0,
        3,
        2,
        [Some(5), None, None],
        &[[5, 2, 0], [5, 3, 0], [5, 7, 0]],
    ),
    (0, 3, 2, [None, Some(7), None], &[[5, 7, 0]]),
    (0, 3, 2, [Some(5), Some(7), None], &[[5, 7, 0]]),
    (0, 3, 2, [Some(5), Some(8), None], &[]),
    (0, 3, 2, [Some(0), None, None], &[[0, TOP, 0]]),
    (0, 3, 2, [None, Some(0), None], &[[TOP, 0, 0]]),
    (0, 3, 2, [Some(0), Some(TOP), None], &[[0, TOP, 0]]),
    (0, 1, 1, ANY, &[[0, 0, 0], [6, 0, 0], [TOP, 0, 0]]),
    (0, 1, 1, [Some(TOP), None, None], &[[TOP, 0, 0]]),
    (0, 0, 0, ANY, &[[0, 0, 0]]),
    (0, 31, 3, ANY, &[[1, 0, 3], [1, 2, 0], [1, 2, 3]]),
    (
        0,
        31,
        3,
        [Some(1), None, None],
        &[[1, 0, 3], [1, 2, 0], [1, 2, 3]],
    ),
    (0, 31, 3, [None, Some(2), None], &[[1, 2, 0], [1, 2, 3]]),
    (0, 31, 3, [None, None, Some(3)], &[[1, 0, 3], [1, 2, 3]]),
    (0, 31, 3, [Some(1), Some(2), Some(0)], &[[1, 2, 0]]),
    // Counts of one predicate are apart, and a predicate may have no facts.
    (0, 3, 1, ANY, &[[5, 0, 0]]),
    (0, 3, 0, ANY, &[]),
    (0, 2, 0, ANY, &[]),
    // Positions are apart.
    (1, 2, 0, ANY, &[[0, 0, 0]]),
    (1, 3, 2, ANY, &[]),
    (2, 3, 2, ANY, &[[5, 1, 0]]),
    (2, 0, 1, ANY, &[[2, 0, 0]]),
    (2, 31, 3, ANY, &[[TOP, TOP, TOP]]),
];

/// Questions that are refused by every journal.
const UNKNOWN: [(u8, u8); 11] = [
    (0, 4),
    (3, 4),
    (3, 255),
    (31, 4),
    (32, 1),
    (32, 3),
    (33, 0),
    (35, 255),
    (36, 2),
    (255, 0),
    (255, 2),
];

static CALCULATED: [(u8, [Option<Value>; 3], &[Tuple]); 10] = [
    (32, [Some(5), None, None], &[[5, 5, 0]]),
    (32, [Some(5), Some(5), None], &[[5, 5, 0]]),
    (32, [Some(5), Some(6), None], &[]),
    (33, [Some(5), Some(6), None], &[[5, 6, 0]]),
    (33, [Some(6), Some(6), None], &[]),
    // 5 * 2^24 + 1
    (34, [Some(83_886_081), None, None], &[[83_886_081, 5, 0]]),
    (34, [Some(83_886_081), Some(4), None], &[]),
    // The block of 300 is from 256 to 511.
    (35, [Some(300), Some(256), None], &[[300, 256, 0]]),
    (35, [Some(300), Some(511), None], &[[300, 511, 0]]),
    (35, [Some(300), Some(512), None], &[]),
];

impl<A: Abort, J: Journal> Trial<'_, A, J> {
    /// The least next stamp and the free units when the course is over.
    pub(crate) fn check_over(&self, shown: usize) {
        if self.case.short {
            let rest = self.case.costs.units(0, [0, 1, 0, 0]);
            self.check_state(shown, u64::from(TOP), rest.saturating_sub(1));
        } else {
            self.check_state(shown, 4_294_967_296, 0);
        }
    }

    /// What the course leaves behind, in a journal in which its position 0 is `base`.
    pub(crate) fn check_walks(&self, base: usize) {
        for (position, predicate, count, given, tuples) in &WALKS {
            let position = position.saturating_add(base);
            self.walk(position, &query(*predicate, *count, *given), tuples);
        }
    }

    /// The tuple before need not be one that was found.
    fn check_between(&self) {
        let any = query(3, 2, ANY);
        self.finds(0, &any, Some([0, 0, TOP]), Some([0, TOP, 0]));
        self.finds(0, &any, Some([4, 10, 0]), Some([5, 2, 0]));
        self.finds(0, &any, Some([5, TOP, 0]), Some([TOP, 0, 0]));
        self.finds(0, &any, Some([TOP, TOP, TOP]), None);
        self.finds(
            0,
            &query(3, 2, [Some(5), None, None]),
            Some([4, TOP, 0]),
            Some([5, 2, 0]),
        );
        self.finds(
            0,
            &query(3, 2, [Some(5), None, None]),
            Some([6, 0, 0]),
            None,
        );
    }

    /// Nothing was shown, and nothing is found.
    fn starts_empty(&mut self) {
        self.check_state(0, self.case.next, self.case.units());
        assert_eq!(self.rt; self.journal.stamp(0), None);
        assert_eq!(self.rt; self.journal.stamp(usize::MAX), None);
        self.walk(0, &query(3, 2, ANY), &[]);
        self.refuses_late(0, fact(3, 2, [5, 7, 0]), Cause::NotShown.at(0));
        self.refuses_commit(1000, &[fact(0, 4, [0; 3])], Cause::BadFact.at(0));
    }

    fn takes_three(&mut self) {
        self.commits(0, 1000, &first_facts());
        // Without the late facts.
        self.walk(
            0,
            &query(3, 2, [Some(5), None, None]),
            &[[5, 2, 0], [5, 7, 0]],
        );
        self.commits(1, 1001, &[]);
        self.walk(1, &query(2, 0, ANY), &[]);
        self.commits(2, 5000, &[fact(3, 2, [5, 1, 9]), fact(0, 1, [2, 8, 9])]);
    }

    fn takes_late(&mut self) {
        self.adds(0, fact(3, 2, [5, 3, 4]));
        // An equal fact is paid again, and is no other tuple.
        self.adds(0, fact(3, 2, [5, 3, 6]));
        self.adds(1, fact(2, 0, [1, 1, 1]));
        self.adds(2, fact(31, 3, [TOP, TOP, TOP]));
    }

    fn check_stamps(&self, last: Option<Stamp>) {
        assert_eq!(self.rt; self.journal.stamp(0), Some(1000));
        assert_eq!(self.rt; self.journal.stamp(1), Some(1001));
        assert_eq!(self.rt; self.journal.stamp(2), Some(5000));
        assert_eq!(self.rt; self.journal.stamp(3), last);
        assert_eq!(self.rt; self.journal.stamp(4), None);
        assert_eq!(self.rt; self.journal.stamp(usize::MAX), None);
    }

    /// No such facts at the last position of the course, nor where no position is shown.
    fn check_absent(&self) {
        for position in [3, 4, 5, 65_536, usize::MAX - 1, usize::MAX] {
            self.walk(position, &query(3, 2, ANY), &[]);
            self.walk(position, &query(0, 0, ANY), &[]);
        }
    }

    /// Refused commits while three positions are shown and the least next stamp is 5001.
    fn keeps_commits_out(&mut self) {
        let good = fact(3, 2, [5, 4, 0]);
        for bad in [
            fact(32, 2, [5, 4, 0]),
            fact(255, 0, [0; 3]),
            fact(3, 4, [0; 3]),
            fact(0, 255, [0; 3]),
        ] {
            self.refuses_commit(6000, &[bad], Cause::BadFact.at(0));
            self.refuses_commit(6000, &[good, good, bad, bad, good], Cause::BadFact.at(2));
            // A bad fact is told before a low stamp.
            self.refuses_commit(5000, &[good, bad], Cause::BadFact.at(1));
        }
        self.refuses_commit(5000, &[good], Cause::StampTooLow.at(3));
        self.refuses_commit(0, &[], Cause::StampTooLow.at(3));
        // More facts than there are units: a low stamp is told first.
        self.refuses_commit(5000, &[good; 40], Cause::StampTooLow.at(3));
        self.refuses_commit(5001, &[good; 40], Cause::NoRoom.at(3));
    }

    /// Refused late facts while three positions are shown.
    fn keeps_late_out(&mut self) {
        let good = fact(3, 2, [5, 4, 0]);
        for bad in [
            fact(32, 2, [5, 4, 0]),
            fact(255, 0, [0; 3]),
            fact(3, 4, [0; 3]),
            fact(0, 255, [0; 3]),
        ] {
            self.refuses_late(0, bad, Cause::BadFact.at(0));
            self.refuses_late(2, bad, Cause::BadFact.at(0));
            // A position that is not shown is told before a bad fact.
            self.refuses_late(3, bad, Cause::NotShown.at(3));
        }
        self.refuses_late(3, good, Cause::NotShown.at(3));
        self.refuses_late(usize::MAX, good, Cause::NotShown.at(usize::MAX));
    }

    fn keeps_questions_out(&self) {
        for (predicate, count) in UNKNOWN {
            assert_eq!(self.rt; self.journal.known(predicate, count), None);
            self.refuses_find(
                &query(predicate, count, [Some(1); 3]),
                Cause::NotKnown.at(usize::from(predicate)),
            );
        }
        for predicate in 0..32u8 {
            for count in 0..4u8 {
                assert_eq!(self.rt;
                    self.journal.known(predicate, count),
                    Some(SmallSet::none())
                );
            }
        }
    }

    /// The predicates 32 to 35, where no source has them.
    pub(crate) fn check_not_calculated(&self) {
        for predicate in 32..36u8 {
            assert_eq!(self.rt; self.journal.known(predicate, 2), None);
            self.refuses_find(
                &query(predicate, 2, [Some(1); 3]),
                Cause::NotKnown.at(usize::from(predicate)),
            );
        }
    }

    /// What the calculated source answers, through a journal.
    fn check_pairs(&self, position: usize) {
        for (predicate, given, tuples) in &CALCULATED {
            self.walk(position, &query(*predicate, 2, *given), tuples);
        }
        let siblings = query(35, 2, [Some(300), None, None]);
        self.finds(position, &siblings, None, Some([300, 256, 0]));
        self.finds(
            position,
            &siblings,
            Some([300, 510, 0]),
            Some([300, 511, 0]),
        );
        self.finds(position, &siblings, Some([300, 511, 0]), None);
    }

    /// The predicates 32 to 35 of the calculated source: the same at all positions, shown or not.
    fn check_calculated(&self) {
        for position in [0, 1, 2, 3, 1_000_000] {
            self.check_pairs(position);
        }
        for predicate in [32, 34, 35u8] {
            assert_eq!(self.rt; self.journal.known(predicate, 2), Some(SmallSet::single(0)));
            self.refuses_find(
                &query(predicate, 2, [None, Some(1), Some(1)]),
                Cause::ValueAbsent.at(0),
            );
        }
        assert_eq!(self.rt; self.journal.known(33, 2), Some(SmallSet::below(2)));
        self.refuses_find(
            &query(33, 2, [None, Some(1), None]),
            Cause::ValueAbsent.at(0),
        );
        self.refuses_find(
            &query(33, 2, [Some(1), None, Some(1)]),
            Cause::ValueAbsent.at(1),
        );
    }

    /// The last position of a journal that has room for it with one fact, and not a unit more. It has the last stamp.
    fn fills_up(&mut self) {
        let last = fact(7, 1, [70, 1, 1]);
        let bad = fact(32, 0, [0; 3]);
        self.refuses_commit(TOP, &[last, fact(7, 1, [71, 1, 1])], Cause::NoRoom.at(3));
        self.commits(3, TOP, &[last]);
        self.walk(3, &query(7, 1, ANY), &[[70, 0, 0]]);
        // No stamp is left, and that is told before the missing room.
        self.refuses_commit(TOP, &[], Cause::StampTooLow.at(4));
        self.refuses_commit(TOP, &[last, bad], Cause::BadFact.at(1));
        self.refuses_late(3, fact(0, 0, [0; 3]), Cause::NoRoom.at(4));
        self.refuses_late(3, bad, Cause::BadFact.at(0));
        self.refuses_late(4, bad, Cause::NotShown.at(4));
    }

    /// The last position of a journal in which one unit is lacking for it with one fact: it is taken without.
    fn falls_short(&mut self) {
        let last = fact(7, 1, [70, 1, 1]);
        self.refuses_commit(TOP - 1, &[last], Cause::NoRoom.at(3));
        self.commits(3, TOP - 1, &[]);
        self.refuses_late(3, last, Cause::NoRoom.at(4));
        self.walk(3, &query(7, 1, ANY), &[]);
        self.refuses_commit(TOP - 1, &[], Cause::StampTooLow.at(4));
    }

    /// Three positions, and late facts.
    fn grow(&mut self) {
        self.starts_empty();
        self.takes_three();
        self.takes_late();
        self.check_stamps(None);
        self.check_walks(0);
    }

    /// All that is refused while there is room.
    fn keep_out(&mut self) {
        self.keeps_commits_out();
        self.keeps_late_out();
        self.keeps_questions_out();
        if self.case.calculated {
            self.check_calculated();
        } else {
            self.check_not_calculated();
        }
        self.check_stamps(None);
        self.check_walks(0);
    }

    /// A last position.
    fn use_up(&mut self) {
        if self.case.short {
            self.falls_short();
            self.check_stamps(Some(TOP - 1));
        } else {
            self.fills_up();
            self.check_stamps(Some(TOP));
        }
        self.check_over(4);
        self.check_absent();
        self.check_walks(0);
    }

    /// All calls, on a journal that shows nothing and has just the units for them.
    pub(crate) fn run_course(&mut self) {
        self.grow();
        self.check_absent();
        self.check_between();
        self.keep_out();
        self.use_up();
    }
}
