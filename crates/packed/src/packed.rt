//! The packed journal.
ghost use Rattle.std.specs.Prelude.{◌≡◌, ◌^◌, ◌≤◌, true, length};
ghost use Rattle.journal.specs.Trace.{rising};
ghost use Rattle.packed.specs.Format.{items_of};
ghost use Rattle.packed.specs.Meaning.{width, stamps, next_from, placed};

use crate::writing::Items;

/// A journal in the bytes of one reserved vector. A unit is a byte.
#[derive(Drop)]
pub struct Packed {
    pub(crate) items: Items,
    pub(crate) shown: usize,
    pub(crate) next: u64,
    ghost bounded: { items.bytes.limit ≤ 65536 },
    ghost counted: { shown ≡ length (stamps (items_of width items.bytes.items)) },
    ghost following: { next ≡ next_from 0 (stamps (items_of width items.bytes.items)) },
    ghost last: { next ≤ 2 ^ 32 },
    ghost placed: { placed (items_of width items.bytes.items) shown ≡ true },
    ghost rising: { rising 0 (stamps (items_of width items.bytes.items)) next ≡ true },
}
