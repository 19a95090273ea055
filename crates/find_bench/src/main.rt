//! How long a find takes at the first, the middle and the last position of a full journal.
#![tactic(auto)]

use facts::{Fact, FactSource, Query};
use journal::Journal;
use packed::Packed;
use record_table::RecordTable;
use std::env;
use std::time::{Duration, Instant};
use table::Arguments;

/// The finds between two looks at the clock.
const ROUND: usize = 1000;

/// The most positions: 30,000 with a mark and a fact each are 60,000 records.
const POSITIONS: u32 = 30_000;

/// Commits positions with one fact of two arguments, till there is no room for more.
fn fill<J: Journal>(journal: &mut J) {
    for stamp in 0..POSITIONS {
        let fact = Fact {
            predicate: 3,
            values: Arguments {
                count: 2,
                first: [stamp, 7, 0],
            },
        };
        if journal.commit(stamp, &[fact]).is_err() {
            return;
        }
    }
}

/// A journal whose finds are timed.
#[derive(Drop)]
struct Bench<'a, J: Journal> {
    rt: &'a HostRuntime,
    journal: &'a J,
}

impl<J: Journal> Bench<'_, J> {
    /// A find at each of these positions: how many were answered with a tuple.
    fn find_each(&self, positions: &[usize]) -> usize {
        let query = Query {
            predicate: 3,
            given: Arguments {
                count: 2,
                first: [None, Some(7), None],
            },
        };
        positions
            .iter()
            .filter(|position| matches!(self.journal.find(**position, &query, None), Ok(Some(_))))
            .count()
    }

    /// Finds for a second at these positions, over and over.
    fn time(&self, what: &str, positions: &[usize]) -> anyhow::Result<()> {
        let start = Instant::now(self.rt)?;
        let mut finds: usize = 0;
        let mut found: usize = 0;
        for _ in 0..1_000_000 {
            found = found.saturating_add(self.find_each(positions));
            finds = finds.saturating_add(ROUND);
            if start.elapsed(self.rt)? >= Duration::from_secs(1) {
                break;
            }
        }
        let nanos = start.elapsed(self.rt)?.as_nanos() / (finds as u128).max(1);
        println!(self.rt; "  {what}: {nanos} ns a find ({found} of {finds} found)")?;
        Ok(())
    }

    /// Finds at one position. It is read from memory each time, so that no find is left out as a repetition.
    fn time_at(&self, what: &str, position: usize) -> anyhow::Result<()> {
        let positions = vec![in self.rt.alloc(); position; ROUND]?;
        self.time(what, positions.as_slice())
    }

    /// Finds at positions all over the journal, which the processor can't foresee.
    fn time_scattered(&self) -> anyhow::Result<()> {
        let mut positions = vec![in self.rt.alloc(); 0usize; ROUND]?;
        let mut number: u32 = 1;
        for position in positions.as_mut_slice() {
            number = number.wrapping_mul(1_664_525).wrapping_add(1_013_904_223);
            *position = (number / 65_536) as usize % self.journal.shown().max(1);
        }
        self.time("scattered", positions.as_slice())
    }
}

fn time_journal<J: Journal>(rt: &HostRuntime, name: &str, journal: &mut J) -> anyhow::Result<()> {
    fill(journal);
    let shown = journal.shown();
    let free = journal.free();
    println!(rt; "{name}: {shown} positions of one fact, {free} units free")?;
    let bench = Bench { rt, journal };
    bench.time_at("first position", 0)?;
    bench.time_at("middle position", shown / 2)?;
    bench.time_at("last position", shown.saturating_sub(1))?;
    bench.time_scattered()
}

// With no argument nothing is timed, so that the run of the gate ends at once.
fn main(rt: HostRuntime) -> anyhow::Result<()> {
    if env::args(&rt)?.len() < 2 {
        return Ok(());
    }
    let heap = rt.alloc();
    time_journal(&rt, "record table", &mut RecordTable::new(heap, 60_000)?)?;
    time_journal(&rt, "packed", &mut Packed::new(heap, 65_536)?)
}
