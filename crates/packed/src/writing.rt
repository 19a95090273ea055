//! Marks and facts, written in bytes.
ghost use Rattle.std.specs.Prelude.{◌≡◌, ◌+◌, ◌-◌, ◌*◌, ◌^◌, ◌<◌, ◌≤◌, true, [], ◌∷◌, ◌++◌, length, Ok, IfOk};
ghost use Rattle.std.specs.List.{flat_map, AllByRecursion};
ghost use Rattle.facts.specs.Tuples.{recordable};
ghost use Rattle.journal.specs.Trace.{costs, sound_from};
ghost use Rattle.reserved.specs.Room.{holding};
ghost use Rattle.packed.specs.Format.{mark, le, encode, items_of, Whole};
ghost use Rattle.packed.specs.Meaning.{width, written, all_written, fact_cost, Put};

use crate::reading::Entries;
use crate::sizes::HEAD;
use facts::Fact;
use journal::Stamp;
use reserved::Reserved;
use std::alloc::{AllocError, Global};
use table::Value;

/// Marks and facts, one behind the other, in bytes that are reserved.
#[derive(Drop)]
pub(crate) struct Items {
    bytes: Reserved<u8>,
    ghost room: { length bytes.items ≤ bytes.limit },
    ghost whole: { Whole width bytes.items },
    ghost encoded: { encode width (items_of width bytes.items) ≡ bytes.items },
}

impl Items {
    /// No items, with room for `limit` bytes.
    pub(crate) fn new(heap: Global, limit: usize) -> Result<Items, AllocError>
        ensures { IfOk result (λ i. (i.bytes.items ≡ []) × (i.bytes.limit ≡ limit)) }
    {
        let bytes = Reserved::new(heap, limit)?;
        Ok(Items { bytes })
    }

    /// The bytes that are written.
    pub(crate) fn as_bytes(&self) -> &[u8]
        ensures { result.now ≡ self.now.bytes.items }
    {
        self.bytes.as_slice()
    }

    /// How many more bytes there is room for.
    pub(crate) fn free(&self) -> usize
        ensures { result ≡ self.now.bytes.limit - length self.now.bytes.items }
    {
        self.bytes.free()
    }

    /// The items, in order.
    pub(crate) fn entries(&self) -> Entries<'_>
        ensures { result.bytes.now ≡ self.now.bytes.items }
    {
        Entries::of(self.as_bytes())
    }

    /// Appends a mark.
    pub(crate) fn put_mark(&mut self, stamp: Stamp)
        requires { length self.old.bytes.items + 5 ≤ self.old.bytes.limit }
        ensures { Put self.old.bytes self.new.bytes (mark stamp ∷ []) 5 }
    {
        self.bytes.push(HEAD);
        self.bytes.extend_from_slice(&stamp.to_le_bytes());
    }

    /// Appends a fact at a position.
    pub(crate) fn put_fact(&mut self, position: u16, fact: &Fact)
        requires sound { recordable fact.now ≡ true }
        requires room { length self.old.bytes.items + fact_cost fact.now.values.count ≤ self.old.bytes.limit }
        ensures { Put self.old.bytes self.new.bytes (written position fact.now ∷ []) (fact_cost fact.now.values.count) }
    {
        self.bytes.push(fact.predicate + 32 * fact.values.count);
        self.bytes.extend_from_slice(&position.to_le_bytes());
        put_values(&mut self.bytes, fact.arguments());
    }

    /// Appends the facts of a position.
    pub(crate) fn put_facts(&mut self, position: u16, facts: &[Fact])
        requires sound { sound_from 0 facts.now ≡ Ok tt }
        requires room { length self.old.bytes.items + costs fact_cost facts.now ≤ self.old.bytes.limit }
        ensures { Put self.old.bytes self.new.bytes (all_written position facts.now) (costs fact_cost facts.now) }
    {
        for fact in facts {
            self.put_fact(position, fact);
        }
    }
}

/// Appends values.
fn put_values(bytes: &mut Reserved<u8>, values: &[Value])
    requires { length bytes.old.items + width * length values.now ≤ bytes.old.limit }
    ensures fits { AllByRecursion (λ v. v < 256 ^ width) values.now }
    ensures bytes { bytes.new ≡ holding bytes.old (bytes.old.items ++ flat_map (le width) values.now) }
{
    for value in values {
        bytes.extend_from_slice(&value.to_le_bytes());
    }
}
