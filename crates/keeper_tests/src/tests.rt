//! The same calls for both keepers, a full table, and the decliner.
use std::ops::Range;
use std::process::Abort;
use std::test::Fail;
use summary::{Decliner, Keeper, Row, RowTable};
use table::Value;

/// Nodes that do not exist.
const BEYOND: [usize; 3] = [32, 33, usize::MAX];

/// A node and the count of its rows, or none where they are lost.
type Count = (usize, Option<usize>);

/// A row that was lengthened, as node and index, once for each time.
type Place = (usize, usize);

/// The row that is offered to a node as the one of this index. Rows of another fill have other values.
fn row_of(fill: Value, node: usize, index: usize) -> Row {
    let first = node.saturating_mul(1000).saturating_add(index);
    let value = Value::try_from(first).unwrap_or(0);
    Row {
        values: [fill, value, 2, 3, 0, 5, value, 4294967295],
        first,
        last: first.saturating_mul(2),
    }
}

/// Offers a node its rows of these indices.
fn offers<K: Keeper>(k: &mut K, fill: Value, node: usize, indices: Range<usize>) {
    for index in indices {
        k.offer(node, row_of(fill, node, index));
    }
}

/// What a keeper should hold. Nodes not named have no rows and are not lost.
// Without the handle and the keeper: what is wanted stays while the keeper is lent out to be changed.
#[derive(Clone, Copy)]
struct Wanted<'a> {
    fill: Value,
    counts: &'a [Count],
    longer: &'a [Place],
}

impl<'a> Wanted<'a> {
    /// Rows of which none was lengthened.
    fn new(fill: Value, counts: &'a [Count]) -> Wanted<'a> {
        Wanted {
            fill,
            counts,
            longer: &[],
        }
    }

    /// How many rows a node should have, or none where they should be lost.
    fn count(&self, node: usize) -> Option<usize> {
        self.counts
            .iter()
            .find(|(other, _)| *other == node)
            .map_or(Some(0), |(_, count)| *count)
    }

    fn row(&self, node: usize, index: usize) -> Row {
        let times = self
            .longer
            .iter()
            .filter(|place| **place == (node, index))
            .count();
        let row = row_of(self.fill, node, index);
        Row {
            last: row.last.saturating_add(times),
            ..row
        }
    }

    fn check_node<K: Keeper>(&self, rt: &impl Abort, k: &K, node: usize) {
        let count = self.count(node);
        assert_eq!(rt; k.is_lost(node), count.is_none(), "lost");
        check_count(rt, k, node, count.unwrap_or(0));
        for index in 0..count.unwrap_or(0) {
            assert_eq!(rt; k.row(node, index), Some(self.row(node, index)), "row");
        }
    }

    /// All that can be asked: of each node whether it is lost, its count and all its rows.
    fn check_held<K: Keeper>(&self, rt: &impl Abort, k: &K) {
        for node in (0..32).chain(BEYOND) {
            self.check_node(rt, k, node);
        }
    }

    /// Offers to nodes that do not exist, and lengthens rows that are not there. None of it changes anything.
    fn calls_beyond<K: Keeper>(&self, k: &mut K) {
        for node in BEYOND {
            k.offer(node, row_of(self.fill, node, 0));
            k.lengthen(node, 0);
            k.lengthen(node, usize::MAX);
        }
        for node in 0..32 {
            k.lengthen(node, self.count(node).unwrap_or(0));
            k.lengthen(node, usize::MAX);
        }
    }

    /// These rows are held, and after calls that change nothing still.
    fn check_stays<K: Keeper>(&self, rt: &impl Abort, k: &mut K) {
        self.check_held(rt, k);
        self.calls_beyond(k);
        self.check_held(rt, k);
    }
}

/// A node has just so many rows.
fn check_count<K: Keeper>(rt: &impl Abort, k: &K, node: usize, count: usize) {
    assert_eq!(rt; k.count(node), count, "count");
    assert_eq!(rt; k.row(node, count), None, "a row behind the last");
    assert_eq!(rt; k.row(node, usize::MAX), None, "a row far behind the last");
}

/// Rows for the nodes 0, 15 and 31, in turns.
fn offers_in_turns<K: Keeper>(k: &mut K, fill: Value) {
    for index in 0..4 {
        k.offer(31, row_of(fill, 31, index));
        k.offer(0, row_of(fill, 0, index));
        k.offer(15, row_of(fill, 15, index));
    }
    k.offer(15, row_of(fill, 15, 4));
}

/// First, middle and last rows, one of them twice.
const LONGER: [Place; 8] = [
    (15, 0),
    (15, 2),
    (15, 4),
    (15, 2),
    (0, 0),
    (0, 3),
    (31, 1),
    (31, 3),
];

/// The calls that every keeper goes through, from empty to empty, and what it holds then.
fn run_course<K: Keeper>(rt: &impl Abort, k: &mut K, offered: Wanted) {
    let none = Wanted::new(offered.fill, &[]);
    none.check_stays(rt, k);
    offers_in_turns(k, offered.fill);
    offered.check_stays(rt, k);
    for (node, index) in LONGER {
        k.lengthen(node, index);
    }
    let longer = Wanted {
        longer: &LONGER,
        ..offered
    };
    longer.check_stays(rt, k);
    k.empty();
    none.check_stays(rt, k);
}

#[test]
fn both_through_the_same_calls(rt: HostRuntime) -> Result<(), Fail> {
    let mut table = RowTable::new(rt.alloc())?;
    let mut decliner = Decliner::new();
    let kept = [(0, Some(4)), (15, Some(5)), (31, Some(4))];
    let lost = [(0, None), (15, None), (31, None)];
    for fill in [7, 8] {
        run_course(&rt, &mut table, Wanted::new(fill, &kept));
        run_course(&rt, &mut decliner, Wanted::new(fill, &lost));
    }
    Ok(())
}

/// Lengthens one row after the other; just that row changes each time.
fn lengthens_each<K: Keeper>(rt: &impl Abort, k: &mut K, offered: Wanted) {
    for (before, (node, index)) in LONGER.iter().enumerate() {
        let wanted = Wanted {
            longer: &LONGER[..before],
            ..offered
        };
        wanted.check_held(rt, k);
        k.lengthen(*node, *index);
    }
    let wanted = Wanted {
        longer: &LONGER,
        ..offered
    };
    wanted.check_stays(rt, k);
}

/// A row that ends at the last position of all stays as it is.
fn lengthens_to_the_top<K: Keeper>(rt: &impl Abort, k: &mut K) {
    let mut row = row_of(9, 31, 0);
    row.last = usize::MAX - 1;
    k.offer(31, row);
    row.last = usize::MAX;
    for _ in 0..3 {
        k.lengthen(31, 0);
        assert_eq!(rt; k.row(31, 0), Some(row), "row");
    }
    check_count(rt, k, 31, 1);
}

#[test]
fn table_lengthens_one_row(rt: HostRuntime) -> Result<(), Fail> {
    let mut table = RowTable::new(rt.alloc())?;
    offers_in_turns(&mut table, 5);
    let counts = [(0, Some(4)), (15, Some(5)), (31, Some(4))];
    lengthens_each(&rt, &mut table, Wanted::new(5, &counts));
    table.empty();
    lengthens_to_the_top(&rt, &mut table);
    Ok(())
}

/// 512 rows for an empty table, in turns: 100 for node 0, 200 for node 5 and 212 for node 31.
fn fills<K: Keeper>(k: &mut K, fill: Value) {
    offers(k, fill, 31, 0..12);
    for turn in 0..100 {
        let twice = turn * 2;
        k.offer(0, row_of(fill, 0, turn));
        offers(k, fill, 5, twice..twice + 2);
        offers(k, fill, 31, twice + 12..twice + 14);
    }
}

/// The table is full: one more row and its node is lost, and so is a node without rows. A lost node takes nothing.
fn loses<K: Keeper>(rt: &impl Abort, k: &mut K, fill: Value) {
    let mut counts = [
        (0, Some(100)),
        (5, Some(200)),
        (9, Some(0)),
        (31, Some(212)),
    ];
    Wanted::new(fill, &counts).check_stays(rt, k);
    offers(k, fill, 9, 0..1);
    counts[2] = (9, None);
    Wanted::new(fill, &counts).check_stays(rt, k);
    offers(k, fill, 5, 200..201);
    counts[1] = (5, None);
    Wanted::new(fill, &counts).check_stays(rt, k);
    offers(k, fill, 5, 0..3);
    offers(k, fill, 9, 0..3);
    Wanted::new(fill, &counts).check_stays(rt, k);
}

/// The 200 places of node 5 are used again, and not one more. Then 212 are free, and of these one is used.
fn uses_again<K: Keeper>(rt: &impl Abort, k: &mut K, fill: Value) {
    offers(k, fill, 7, 0..199);
    offers(k, fill, 0, 100..101);
    let mut counts = [
        (0, Some(101)),
        (5, None),
        (7, Some(199)),
        (9, None),
        (31, Some(212)),
    ];
    Wanted::new(fill, &counts).check_stays(rt, k);
    offers(k, fill, 31, 212..213);
    counts[4] = (31, None);
    Wanted::new(fill, &counts).check_stays(rt, k);
    offers(k, fill, 7, 199..200);
    counts[2] = (7, Some(200));
    Wanted::new(fill, &counts).check_stays(rt, k);
}

/// Node 20 takes the 211 places that are left. Then the first node is lost, which moves all other rows.
fn loses_first<K: Keeper>(rt: &impl Abort, k: &mut K, fill: Value) {
    offers(k, fill, 20, 0..211);
    let mut counts = [
        (0, Some(101)),
        (5, None),
        (7, Some(200)),
        (9, None),
        (20, Some(211)),
        (31, None),
    ];
    Wanted::new(fill, &counts).check_stays(rt, k);
    offers(k, fill, 0, 101..102);
    counts[0] = (0, None);
    Wanted::new(fill, &counts).check_stays(rt, k);
}

#[test]
fn table_fills_and_loses(rt: HostRuntime) -> Result<(), Fail> {
    let mut table = RowTable::new(rt.alloc())?;
    for fill in [1, 2] {
        fills(&mut table, fill);
        loses(&rt, &mut table, fill);
        uses_again(&rt, &mut table, fill);
        loses_first(&rt, &mut table, fill);
        table.empty();
        Wanted::new(fill, &[]).check_stays(&rt, &mut table);
    }
    Ok(())
}

/// Just the nodes below `end` are lost, and none has rows.
fn check_lost_below<K: Keeper>(rt: &impl Abort, k: &K, end: usize) {
    for node in 0..34 {
        assert_eq!(rt; k.is_lost(node), node < end, "lost");
        check_count(rt, k, node, 0);
    }
}

#[test]
fn decliner_loses_each_node(rt: HostRuntime) {
    let mut decliner = Decliner::new();
    let none = Wanted::new(1, &[]);
    for node in 0..32 {
        check_lost_below(&rt, &decliner, node);
        offers(&mut decliner, 1, node, 0..2);
    }
    none.calls_beyond(&mut decliner);
    check_lost_below(&rt, &decliner, 32);
    decliner.empty();
    none.check_stays(&rt, &mut decliner);
}
