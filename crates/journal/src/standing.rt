//! The refusals that are the same in every store of facts, whatever a mark and a fact cost there.
ghost use Rattle.std.specs.Prelude.{◌≡◌};
ghost use Rattle.journal.specs.Trace.{affordable, allowed_position, allowed_commit, allowed_late};

use crate::journal::{Stamp, check_facts};
use facts::Fact;
use refusal::{Cause, Refusal};

/// What a store says of itself before it takes something.
#[derive(Clone, Copy, Debug, PartialEq, Eq)]
pub struct Standing {
    /// How many positions are shown.
    pub shown: usize,
    /// The least stamp that a commit may have.
    pub next: u64,
    /// The free units.
    pub free: usize,
}

impl Standing {
    /// Ok if a commit of these facts may be taken, whatever it costs, else the first refusal.
    pub fn allow_position(self, stamp: Stamp, facts: &[Fact]) -> Result<(), Refusal>
        ensures { result ≡ allowed_position self stamp facts.now }
    {
        check_facts(facts)?;
        if u64::from(stamp) < self.next {
            return Err(Cause::StampTooLow.at(self.shown));
        }
        Ok(())
    }

    /// Ok if a commit of these facts, at this cost, may be taken, else the first refusal.
    pub fn allow_commit(self, stamp: Stamp, facts: &[Fact], cost: usize) -> Result<(), Refusal>
        ensures { result ≡ allowed_commit self stamp facts.now cost }
    {
        self.allow_position(stamp, facts)?;
        self.afford(cost)
    }

    /// Ok if a late fact, at this cost, may be taken, else the first refusal.
    pub fn allow_late(self, position: usize, fact: &Fact, cost: usize) -> Result<(), Refusal>
        ensures { result ≡ allowed_late self position fact.now cost }
    {
        if position >= self.shown {
            return Err(Cause::NotShown.at(position));
        }
        if !fact.is_recordable() {
            return Err(Cause::BadFact.at(0));
        }
        self.afford(cost)
    }

    /// Ok if the free units cover the cost.
    pub fn afford(self, cost: usize) -> Result<(), Refusal>
        ensures { result ≡ affordable self cost }
    {
        if self.free < cost {
            return Err(Cause::NoRoom.at(self.shown));
        }
        Ok(())
    }
}
