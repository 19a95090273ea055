//! A packed journal as a journal.
ghost use Rattle.std.specs.Prelude.{◌≡◌, [], ◌∷◌, refl};
ghost use Rattle.journal.specs.Trace.{shown, standing, Commits, Lates};
ghost use Rattle.packed.specs.Format.{mark, items_of};
ghost use Rattle.packed.specs.Journal.{facts_of, trace_of, Appends};
ghost use Rattle.packed.specs.Meaning.{written, all_written, width, stamps};
ghost use Rattle.std.proofs.Common.{arith, rules};
ghost use Rattle.journal.proofs.Stamps.{rising_at, rising_below};
ghost use Rattle.packed.specs.Growth.{held_beyond, marks_few};

use crate::packed::Packed;
use crate::sizes::{MARK, fact_size, facts_size};
use facts::Fact;
use journal::{Journal, Stamp, Standing};
use refusal::Refusal;

impl Packed {
    // In each store, and no method of `Journal` with a body: such a method, called by the store's own `commit`, leads back to
    // it and gets no proof.
    fn standing(&self) -> Standing
        ensures { result ≡ standing (trace_of self.now) }
    {
        Standing {
            shown: self.shown,
            next: self.next,
            free: self.items.free(),
        }
    }
}

impl Journal for Packed {
    ghost trace = { trace_of };

    ghost keeps = { λ _ _. Unit {0} };

    ghost orderly = { λ j.
        let ss = stamps (items_of width j.items.bytes.items) in
        record {
          rising = λ p q h l. rising_at 0 j.next ss p q j.rising h l;
          below = λ p l. omega (arith, j.following, rising_below 0 j.next ss p j.rising l);
          last = omega (arith, j.following, j.last);
          few = omega (arith, marks_few j.items.bytes.items j.items.whole, j.items.room, j.bounded);
          unshown = λ p q vs own h. held_beyond (items_of width j.items.bytes.items) j.shown p q vs j.placed (omega (arith, j.counted, h));
          needs = λ q n own. refl;
        } };

    ghost same = { first_of (Prim.search rules, Prim.grind (arith, Self.row.coded.inj)) };

    ghost along = { first_of (Prim.search rules, Prim.grind (arith, Self.row.coded.inj)) };

    fn shown(&self) -> usize {
        self.shown
    }

    fn stamp(&self, position: usize) -> Option<Stamp> {
        self.items.stamp_at(position)
    }

    fn least_next_stamp(&self) -> u64 {
        self.next
    }

    fn free(&self) -> usize {
        self.items.free()
    }

    fn commit(&mut self, stamp: Stamp, facts: &[Fact]) -> Result<(), Refusal>
        ensures does { Commits facts_of trace_of self.old self.new stamp facts.now result }
        ensures keeps { Unit {0} }
        ensures puts { Appends self.old self.new (mark stamp ∷ all_written (shown (trace_of self.old)) facts.now) result }
    {
        let standing = self.standing();
        standing.allow_position(stamp, facts)?;
        // Counted only now, and only as far as there is room: a long list that is refused costs no more than it must.
        standing.afford(facts_size(facts, standing.free).saturating_add(MARK))?;
        let position = self.shown as u16;
        self.items.put_mark(stamp);
        self.items.put_facts(position, facts);
        self.shown += 1;
        self.next = u64::from(stamp) + 1;
        Ok(())
    }

    fn late(&mut self, position: usize, fact: Fact) -> Result<(), Refusal>
        ensures does { Lates facts_of trace_of self.old self.new position fact result }
        ensures keeps { Unit {0} }
        ensures puts { Appends self.old self.new (written position fact ∷ []) result }
    {
        let cost = fact_size(fact.values.count);
        self.standing().allow_late(position, &fact, cost)?;
        self.items.put_fact(position as u16, &fact);
        Ok(())
    }
}
