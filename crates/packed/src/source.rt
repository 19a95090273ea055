//! The facts of a packed journal.
ghost use Rattle.packed.specs.Journal.{facts_of};

use crate::packed::Packed;
use facts::{FactSource, Query, Sought, Tuple, allow};
use journal::known_to_journals;
use refusal::Refusal;
use sets::SmallSet;

impl FactSource for Packed {
    ghost facts = { facts_of };

    fn known(&self, predicate: u8, count: u8) -> Option<SmallSet> {
        known_to_journals(predicate, count)
    }

    fn find(
        &self,
        position: usize,
        query: &Query,
        after: Option<Tuple>,
    ) -> Result<Option<Tuple>, Refusal> {
        allow(self.known(query.predicate, query.given.count), query)?;
        let sought = Sought {
            query: *query,
            after,
        };
        Ok(self.items.least_at(position, &sought))
    }
}
