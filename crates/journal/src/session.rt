//! A session over a journal: it shows the positions that came after it was made.
ghost use Rattle.std.specs.Prelude.{◌≡◌, min};
ghost use Rattle.std.proofs.Common.{◌∙◌, rules};
ghost use Rattle.journal.specs.Trace.{shown};
ghost use Rattle.journal.specs.Layers.{shifted, later, Behind, own_place};
ghost use Rattle.journal.specs.Sessions.{orderly_later, behind_along};

use crate::journal::{Journal, Stamp};
use facts::{Fact, FactSource, Query, Tuple, allow};
use refusal::{Cause, Refusal};
use sets::SmallSet;

/// Hides the first `base` positions of the journal below, and numbers the later ones from 0. A base above the positions
/// shown below counts as these.
#[derive(Drop)]
pub struct Session<J: Journal> {
    lower: J,
    base: usize,
}

impl<J: Journal> Session<J> {
    /// A session that hides the positions shown now.
    pub fn new(lower: J) -> Session<J>
        ensures lower { result.lower ≡ lower }
        ensures base { result.base ≡ shown (J.Journal.trace lower) }
    {
        let base = lower.shown();
        Session { lower, base }
    }

    /// Takes the layer off.
    pub fn end(self) -> J
        ensures { result ≡ self.lower }
    {
        let Session { lower, base: _ } = self;
        lower
    }

    /// How many positions are hidden.
    fn hidden(&self) -> usize
        ensures { result ≡ min self.now.base (shown (J.Journal.trace self.now.lower)) }
    {
        self.base.min(self.lower.shown())
    }
}

/// A refusal from below, where a place that counts positions is in the session's own numbers.
fn own_place(refusal: Refusal, hidden: usize) -> Refusal
    ensures { result ≡ own_place refusal hidden }
{
    match refusal.cause {
        Cause::StampTooLow | Cause::NoRoom => Refusal {
            place: refusal.place.saturating_sub(hidden),
            ..refusal
        },
        _ => refusal,
    }
}

impl<J: Journal> FactSource for Session<J> {
    ghost facts = { λ s. shifted (J.FactSource.facts s.lower) (min s.base (shown (J.Journal.trace s.lower))) };

    fn known(&self, predicate: u8, count: u8) -> Option<SmallSet> {
        self.lower.known(predicate, count)
    }

    fn find(
        &self,
        position: usize,
        query: &Query,
        after: Option<Tuple>,
    ) -> Result<Option<Tuple>, Refusal> {
        let Some(below) = position.checked_add(self.hidden()) else {
            allow(self.known(query.predicate, query.given.count), query)?;
            return Ok(None);
        };
        self.lower.find(below, query, after)
    }
}

impl<J: Journal> Journal for Session<J> {
    ghost trace = { λ s. later (J.Journal.trace s.lower) (min s.base (shown (J.Journal.trace s.lower))) };

    ghost keeps = { λ s t. J.Journal.keeps s.lower t.lower × (min t.base (shown (J.Journal.trace t.lower)) ≡ min s.base (shown (J.Journal.trace s.lower))) × Behind (J.FactSource.facts s.lower) (J.Journal.trace s.lower) (J.FactSource.facts t.lower) (J.Journal.trace t.lower) (min s.base (shown (J.Journal.trace s.lower))) };

    ghost orderly = { λ j. orderly_later _ _ _ (J.Journal.orderly j.lower) };

    ghost same = { Prim.search rules };

    ghost along = { λ i j k (p, e, b) (q, d, a). (J.Journal.along i.lower j.lower k.lower p q, d ∙ e, behind_along _ _ _ _ _ _ _ _ e b a) };

    fn shown(&self) -> usize {
        self.lower.shown() - self.hidden()
    }

    fn stamp(&self, position: usize) -> Option<Stamp> {
        self.lower.stamp(position.checked_add(self.hidden())?)
    }

    fn least_next_stamp(&self) -> u64 {
        self.lower.least_next_stamp()
    }

    fn free(&self) -> usize {
        self.lower.free()
    }

    fn commit(&mut self, stamp: Stamp, facts: &[Fact]) -> Result<(), Refusal> {
        let hidden = self.hidden();
        self.lower
            .commit(stamp, facts)
            .map_err(|refusal| own_place(refusal, hidden))?;
        self.base = hidden;
        Ok(())
    }

    fn late(&mut self, position: usize, fact: Fact) -> Result<(), Refusal> {
        if position >= self.shown() {
            return Err(Cause::NotShown.at(position));
        }
        let hidden = self.hidden();
        self.lower
            .late(position + hidden, fact)
            .map_err(|refusal| own_place(refusal, hidden))
    }
}
