//! Marks and facts, read from bytes.
ghost use Rattle.std.specs.Prelude.{◌≡◌, ◌*◌, ◌/◌, ◌≤◌, true, length, slice_index, map, Some, None, fold};
ghost use Rattle.std.specs.List.{slice_get};
ghost use Rattle.std.specs.Int.{from_le_bytes, w32};
ghost use Rattle.std.specs.Iterator.{YieldsFirst, item_count};
ghost use Rattle.facts.specs.Scan.{better};
ghost use Rattle.packed.specs.Format.{nums, headed, more, item_at, items_of, Whole};
ghost use Rattle.packed.specs.Meaning.{width, entry_of, values_read, stamps, facts_at, entries_of, stamp_in, fact_in};

use crate::sizes::{HEAD, WIDTH, body_size};
use crate::writing::Items;
use facts::{Fact, Sought, Tuple};
use journal::Stamp;
use table::{Arguments, Value};

/// An item of the bytes: the mark of a stamp, or a fact at a position.
#[derive(Clone, Copy)]
pub(crate) enum Entry {
    Mark(Stamp),
    Noted(u16, Fact),
}

impl Entry {
    /// The stamp of a mark.
    fn stamp(self) -> Option<Stamp>
        ensures { result ≡ stamp_in self }
    {
        match self {
            Entry::Mark(stamp) => Some(stamp),
            Entry::Noted(..) => None,
        }
    }

    /// A fact, where it is at the position.
    fn fact_at(self, position: usize) -> Option<Fact>
        ensures { result ≡ fact_in position self }
    {
        match self {
            Entry::Noted(at, fact) if position == usize::from(at) => Some(fact),
            _ => None,
        }
    }
}

/// The items that bytes write, read one after the other.
#[derive(Drop)]
pub(crate) struct Entries<'a> {
    bytes: &'a [u8],
    ghost whole: { Whole width bytes.now },
}

impl<'a> Entries<'a> {
    pub(crate) fn of(bytes: &'a [u8]) -> Entries<'a>
        requires { Whole width bytes.now }
        ensures { result.bytes.now ≡ bytes.now }
    {
        Entries { bytes }
    }
}

impl Iterator for Entries<'_> {
    type Item = Entry;

    ghost next_gives = { YieldsFirst (λ e. entries_of e.bytes.now) };

    ghost remaining = { item_count (λ e. entries_of e.bytes.now) };

    fn next(&mut self) -> Option<Entry> {
        let (head, rest) = self.bytes.split_first()?;
        let (body, rest) = rest.split_at(body_size(*head));
        let entry = read(*head, body);
        self.bytes = rest;
        Some(entry)
    }
}

/// The item of a head and the bytes that follow it.
fn read(head: u8, body: &[u8]) -> Entry
    requires head { headed head ≡ true }
    requires body { length body.now ≡ more width head }
    ensures { result ≡ entry_of (item_at width head body.now) }
{
    if head == HEAD {
        let (stamp, _) = body.split_first_chunk().unwrap();
        Entry::Mark(Stamp::from_le_bytes(*stamp))
    } else {
        let (position, values) = body.split_first_chunk().unwrap();
        let fact = Fact {
            predicate: head % 32,
            values: read_values(values),
        };
        Entry::Noted(u16::from_le_bytes(*position), fact)
    }
}

/// The values that these bytes write, of which there are at most three, and 0 behind them.
fn read_values(bytes: &[u8]) -> Arguments<Value>
    requires { length bytes.now ≤ 3 * width }
    ensures { result ≡ values_read (nums width (length bytes.now / width) bytes.now) }
{
    let (words, _) = bytes.as_chunks::<WIDTH>();
    Arguments {
        count: words.len() as u8,
        first: [value_at(words, 0), value_at(words, 1), value_at(words, 2)],
    }
}

/// The value that stands at a place, or 0.
fn value_at(words: &[[u8; WIDTH]], place: usize) -> Value
    ensures { result ≡ slice_index (map (from_le_bytes w32) words.now) place }
{
    words
        .get(place)
        .map_or(0, |word| Value::from_le_bytes(*word))
}

impl Items {
    /// The least tuple of a fact at the position that answers the query and is greater than the one before.
    pub(crate) fn least_at(&self, position: usize, sought: &Sought) -> Option<Tuple>
        ensures { result ≡ fold (better sought.now.query sought.now.after) None (facts_at position (items_of width self.now.bytes.items)) }
    {
        self.entries()
            .filter_map(|entry| entry.fact_at(position))
            .fold(None, |best, fact| sought.nearer(best, &fact))
    }

    /// The stamp of the mark of a position, where there are as many.
    pub(crate) fn stamp_at(&self, position: usize) -> Option<Stamp>
        ensures { result ≡ slice_get (stamps (items_of width self.now.bytes.items)) position }
    {
        self.entries()
            .filter_map(|entry| entry.stamp())
            .nth(position)
    }
}
