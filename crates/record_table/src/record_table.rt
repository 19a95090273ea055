//! The journal of records.
ghost use Rattle.std.specs.Prelude.{◌≡◌, ◌+◌, ◌-◌, ◌^◌, ◌≤◌, length, min, true, [], IfOk, refl};
ghost use Rattle.journal.specs.Trace.{rising, standing};
ghost use Rattle.record_table.specs.Records.{Placed, recorded, traced};
ghost use Rattle.std.proofs.Common.{arith, rules};
ghost use Rattle.journal.proofs.Stamps.{rising_at, rising_below};
ghost use Rattle.record_table.specs.Meaning.{none_unshown};

use crate::record::{Records, scan};
use facts::{Fact, FactSource, Query, Sought, Tuple, allow};
use journal::{Journal, Stamp, Standing, known_to_journals};
use refusal::Refusal;
use reserved::Reserved;
use sets::SmallSet;
use std::alloc::{AllocError, Global};

/// A journal that keeps its facts as records, in rising order of their positions. A mark and a fact cost one unit each.
/// All memory is reserved when it is made.
#[derive(Drop)]
pub struct RecordTable {
    stamps: Reserved<Stamp>,
    records: Records,
    next: u64,
    limit: usize,
    ghost room: { length stamps.items + length records.items ≤ limit },
    ghost bounded: { limit ≤ 65536 },
    ghost stamps_reserved: { limit ≤ stamps.limit },
    ghost records_reserved: { limit ≤ records.limit },
    ghost placed: { Placed records.items (length stamps.items) },
    ghost rising: { rising 0 stamps.items next ≡ true },
    ghost last: { next ≤ 2 ^ 32 },
}

impl RecordTable {
    /// An empty journal of at most 65,536 units.
    pub fn new(heap: Global, units: usize) -> Result<RecordTable, AllocError>
        ensures { IfOk result (λ t. (t.stamps.items ≡ []) × (t.records.items ≡ []) × (t.next ≡ 0) × (t.limit ≡ min units 65536)) }
    {
        let limit = units.min(65_536);
        let stamps = Reserved::new(heap, limit)?;
        let records = Records::new(heap, limit)?;
        Ok(RecordTable {
            stamps,
            records,
            next: 0,
            limit,
        })
    }

    // In each store, and no method of `Journal` with a body: such a method, called by the store's own `commit`, leads back to
    // it and gets no proof.
    fn standing(&self) -> Standing
        ensures { result ≡ standing (⟦<RecordTable as Journal>⟧.trace self.now) }
    {
        Standing {
            shown: self.shown(),
            next: self.next,
            free: self.free(),
        }
    }
}

impl FactSource for RecordTable {
    ghost facts = { λ t. recorded t.records.items };

    fn known(&self, predicate: u8, count: u8) -> Option<SmallSet> {
        known_to_journals(predicate, count)
    }

    fn find(
        &self,
        position: usize,
        query: &Query,
        after: Option<Tuple>,
    ) -> Result<Option<Tuple>, Refusal> {
        allow(self.known(query.predicate, query.given.count), query)?;
        let sought = Sought {
            query: *query,
            after,
        };
        Ok(scan(self.records.at(position), &sought))
    }
}

impl Journal for RecordTable {
    ghost trace = { λ t. traced t.stamps.items t.next (t.limit - (length t.stamps.items + length t.records.items)) };

    ghost keeps = { λ _ _. Unit {0} };

    ghost orderly = { λ j.
        record {
          rising = λ p q h l. rising_at 0 j.next j.stamps.items p q j.rising h l;
          below = λ p l. rising_below 0 j.next j.stamps.items p j.rising l;
          last = j.last;
          few = Prim.search rules;
          unshown = λ p q vs o h. none_unshown j.records.items (length j.stamps.items) p q vs j.placed h;
          needs = λ q n _. refl;
        } };

    ghost same = { first_of (Prim.search rules, Prim.grind (arith, Self.row.coded.inj)) };

    ghost along = { first_of (Prim.search rules, Prim.grind (arith, Self.row.coded.inj)) };

    fn shown(&self) -> usize {
        self.stamps.as_slice().len()
    }

    fn stamp(&self, position: usize) -> Option<Stamp> {
        self.stamps.as_slice().get(position).copied()
    }

    fn least_next_stamp(&self) -> u64 {
        self.next
    }

    fn free(&self) -> usize {
        self.limit - (self.shown() + self.records.len())
    }

    fn commit(&mut self, stamp: Stamp, facts: &[Fact]) -> Result<(), Refusal> {
        self.standing().allow_commit(stamp, facts, 1 + facts.len())?;
        let position = self.shown() as u16;
        self.records.append(position, facts);
        self.stamps.push(stamp);
        self.next = u64::from(stamp) + 1;
        Ok(())
    }

    fn late(&mut self, position: usize, fact: Fact) -> Result<(), Refusal> {
        self.standing().allow_late(position, &fact, 1)?;
        self.records.insert(position as u16, fact);
        Ok(())
    }
}
