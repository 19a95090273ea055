//! Records, in rising order of their positions.
ghost use Rattle.std.specs.Prelude.{◌≡◌, ◌+◌, ◌<◌, ◌≤◌, ◌==◌, [], ◌++◌, length, map, filter, fold, None, IfOk};
ghost use Rattle.facts.specs.Scan.{better};
ghost use Rattle.reserved.specs.Room.{holding};
ghost use Rattle.record_table.specs.Records.{Placed, records_at, with_record};

use facts::{Fact, Sought, Tuple};
use reserved::Reserved;
use std::alloc::{AllocError, Global};
use std::marker::Model;

/// A fact at a position. Fewer than 65,536 positions lie before one that is shown, so two bytes hold it, and a record takes 24.
#[derive(Clone, Copy)]
pub(crate) struct Record {
    pub(crate) position: u16,
    pub(crate) fact: Fact,
}

/// The records of a table: no record stands behind one of a later position.
#[derive(Drop)]
pub(crate) struct Records {
    records: Reserved<Record>,
}

impl Model for Records {
    ghost use Rattle.record_table.specs.declared.record.Record.{Record};
    ghost use Rattle.reserved.specs.Room.{Room};
    ghost use Rattle.record_table.specs.Records.{Sorted};

    ghost Value = { Room Record };

    ghost view = { λ r. r.records };

    ghost invariant = { λ r. Sorted r.records.items };
}

impl Records {
    /// No records, with room for `limit` of them.
    pub(crate) fn new(heap: Global, limit: usize) -> Result<Records, AllocError>
        ensures { IfOk result (λ r. (r.items ≡ []) × (r.limit ≡ limit)) }
    {
        let records = Reserved::new(heap, limit)?;
        Ok(Records { records })
    }

    /// How many records there are.
    pub(crate) fn len(&self) -> usize
        ensures { result ≡ length self.now.items }
    {
        self.records.as_slice().len()
    }

    /// The records at a position.
    pub(crate) fn at(&self, position: usize) -> &[Record]
        ensures { result.now ≡ filter (λ r. position == r.position) self.now.items }
    {
        let records = self.records.as_slice();
        let start = records.partition_point(|r| usize::from(r.position) < position);
        let (_, from) = records.split_at(start);
        let end = from.partition_point(|r| usize::from(r.position) <= position);
        let (here, _) = from.split_at(end);
        here
    }

    /// Adds records of these facts at the end, behind records of earlier positions.
    pub(crate) fn append(&mut self, position: u16, facts: &[Fact])
        requires later { Placed self.old.items position }
        requires room { length self.old.items + length facts.now ≤ self.old.limit }
        ensures { self.new ≡ holding self.old (self.old.items ++ records_at position facts.now) }
    {
        for fact in facts {
            self.records.push(Record {
                position,
                fact: *fact,
            });
        }
    }

    /// Puts a record of this fact behind those at its position.
    pub(crate) fn insert(&mut self, position: u16, fact: Fact)
        requires { length self.old.items < self.old.limit }
        ensures { self.new ≡ holding self.old (with_record self.old.items position fact) }
    {
        let records = self.records.as_slice();
        let behind = records.partition_point(|r| r.position <= position);
        self.records.insert(behind, Record { position, fact });
    }
}

/// The least tuple of these records that answers the query and is greater than the one before.
pub(crate) fn scan(records: &[Record], sought: &Sought) -> Option<Tuple>
    ensures { result ≡ fold (better sought.now.query sought.now.after) None (map (λ r. r.fact) records.now) }
{
    // A loop and no `fold`: through the closure the best tuple so far went by memory for each record, in more than twice the time.
    let mut best = None;
    for record in records {
        best = sought.nearer(best, &record.fact);
    }
    best
}
