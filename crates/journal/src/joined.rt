//! A journal joined with a second source, from which the predicates from 32 up come.
ghost use Rattle.std.specs.Prelude.{◌≡◌, Bool, if◌then◌else◌};
ghost use Rattle.std.proofs.Common.{ap, ◌∙◌, rules};
ghost use Rattle.journal.specs.Layers.{merged, Beside};
ghost use Rattle.journal.specs.LayersLemmas.{beside_along};

use crate::journal::{Journal, Stamp, is_own};
use facts::{Fact, FactSource, Query, Tuple};
use refusal::Refusal;
use sets::SmallSet;

/// A journal whose predicates from 32 up are those of a second source.
#[derive(Drop)]
pub struct Joined<J: Journal, S: FactSource> {
    lower: J,
    second: S,
}

impl<J: Journal, S: FactSource> Joined<J, S> {
    pub fn new(lower: J, second: S) -> Joined<J, S>
        ensures lower { result.lower ≡ lower }
        ensures second { result.second ≡ second }
    {
        Joined { lower, second }
    }

    /// Takes the layer off.
    pub fn end(self) -> (J, S)
        ensures { (result.0 ≡ self.lower) × (result.1 ≡ self.second) }
    {
        let Joined { lower, second } = self;
        (lower, second)
    }
}

impl<J: Journal, S: FactSource> FactSource for Joined<J, S> {
    ghost facts = { λ s. merged (J.FactSource.facts s.lower) (S.FactSource.facts s.second) };

    fn known(&self, predicate: u8, count: u8) -> Option<SmallSet> {
        if is_own(predicate) {
            self.lower.known(predicate, count)
        } else {
            self.second.known(predicate, count)
        }
    }

    fn find(
        &self,
        position: usize,
        query: &Query,
        after: Option<Tuple>,
    ) -> Result<Option<Tuple>, Refusal> {
        if is_own(query.predicate) {
            self.lower.find(position, query, after)
        } else {
            self.second.find(position, query, after)
        }
    }
}

impl<J: Journal, S: FactSource> Journal for Joined<J, S> {
    ghost trace = { λ s. J.Journal.trace s.lower };

    ghost keeps = { λ s t. J.Journal.keeps s.lower t.lower × (t.second ≡ s.second) × Beside (J.FactSource.facts s.lower) (J.FactSource.facts t.lower) };

    ghost orderly = { λ j.
        let below = J.Journal.orderly j.lower in
        record {
          rising = below.rising;
          below = below.below;
          last = below.last;
          few = below.few;
          unshown = λ p q vs o h. rw o (below.unshown p q vs o h);
          needs = λ q n o. ap (λ (b : Bool). (if b then (J.FactSource.facts j.lower).needs q n else (S.FactSource.facts j.second).needs q n)) o ∙ below.needs q n o;
        } };

    ghost same = { Prim.search rules };

    ghost along = { λ i j k (p, e, b) (q, d, a). (J.Journal.along i.lower j.lower k.lower p q, d ∙ e, beside_along _ _ _ b a) };

    fn shown(&self) -> usize {
        self.lower.shown()
    }

    fn stamp(&self, position: usize) -> Option<Stamp> {
        self.lower.stamp(position)
    }

    fn least_next_stamp(&self) -> u64 {
        self.lower.least_next_stamp()
    }

    fn free(&self) -> usize {
        self.lower.free()
    }

    fn commit(&mut self, stamp: Stamp, facts: &[Fact]) -> Result<(), Refusal> {
        self.lower.commit(stamp, facts)
    }

    fn late(&mut self, position: usize, fact: Fact) -> Result<(), Refusal> {
        self.lower.late(position, fact)
    }
}
