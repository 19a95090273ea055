//! What a journal is.
ghost use Rattle.std.specs.Prelude.{◌≡◌};
ghost use Rattle.std.specs.Option.{option_map};
ghost use Rattle.std.specs.List.{slice_get};
ghost use Rattle.sets.specs.Sets.{members};
ghost use Rattle.journal.specs.Trace.{Trace, Orderly, shown, own, own_needs, sound_from, Commits, Lates};

use facts::{Fact, FactSource};
use refusal::{Cause, Refusal};
use sets::SmallSet;

/// A time, in seconds.
pub type Stamp = u32;

/// A source of facts that also has stamps and takes new positions.
// The arguments of `commit` and `late` stand apart, not as one value: the subject names these calls.
pub trait Journal: FactSource {
    /// The stamps of the positions shown, the least next stamp, the free units, and what a mark and a fact cost.
    ghost trace: { Self → Trace };

    /// What the layers hide is in both as it is in the first.
    ghost keeps: { Self → Self → Type 0 };

    /// How many positions are shown.
    fn shown(&self) -> usize
        ensures { result ≡ shown (trace self.now) };

    /// The stamp of a position that is shown.
    fn stamp(&self, position: usize) -> Option<Stamp>
        ensures { result ≡ slice_get (trace self.now).stamps position };

    /// The least stamp that a commit may have.
    fn least_next_stamp(&self) -> u64
        ensures { result ≡ (trace self.now).next };

    /// The free units.
    fn free(&self) -> usize
        ensures { result ≡ (trace self.now).free };

    /// Adds a position with its facts.
    fn commit(&mut self, stamp: Stamp, facts: &[Fact]) -> Result<(), Refusal>
        ensures does { Commits Self.FactSource.facts trace self.old self.new stamp facts.now result }
        ensures keeps { keeps self.old self.new };

    /// Adds a fact to a position that is shown.
    fn late(&mut self, position: usize, fact: Fact) -> Result<(), Refusal>
        ensures does { Lates Self.FactSource.facts trace self.old self.new position fact result }
        ensures keeps { keeps self.old self.new };

    ghost orderly: { (j : Self) → Orderly (Self.FactSource.facts j) (trace j) };

    ghost same: { (i : Self) → keeps i i };

    ghost along: { (i j k : Self) → keeps i j → keeps j k → keeps i k };
}

/// Whether a journal records facts of a predicate.
pub(crate) fn is_own(predicate: u8) -> bool
    ensures { result ≡ own predicate }
{
    predicate < 32
}

/// What a journal answers to `known` of its own predicates, 0 to 31; it knows no others.
pub fn known_to_journals(predicate: u8, count: u8) -> Option<SmallSet>
    ensures { option_map members result ≡ own_needs predicate count }
{
    (is_own(predicate) && count < 4).then_some(SmallSet::none())
}

/// Whether a journal takes all of these facts, and else the refusal at the first that none takes.
pub fn check_facts(facts: &[Fact]) -> Result<(), Refusal>
    ensures { result ≡ sound_from 0 facts.now }
{
    facts
        .iter()
        .position(|fact| !fact.is_recordable())
        .map_or(Ok(()), |bad| Err(Cause::BadFact.at(bad)))
}
