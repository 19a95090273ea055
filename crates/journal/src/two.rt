//! Two commits in a row, on any journal, and in a session over a journal that is joined with a second source: the
//! meaning of the calls composes.
ghost use Rattle.std.specs.Prelude.{◌≡◌, true, is_ok};
ghost use Rattle.journal.specs.Layers.{later};
ghost use Rattle.journal.specs.Trace.{shown};
ghost use Rattle.journal.specs.Twice.{CommitsTwo, Twice, two_answer};

use crate::joined::Joined;
use crate::journal::{Journal, Stamp};
use crate::session::Session;
use facts::{Fact, FactSource};
use refusal::Refusal;

/// Two commits, of which the second is made only if the first is taken.
pub fn commit_two<J: Journal>(
    journal: &mut J,
    first: Stamp,
    facts: &[Fact],
    second: Stamp,
    more: &[Fact],
) -> Result<(), Refusal>
    ensures does { CommitsTwo J.FactSource.facts J.Journal.trace journal.old journal.new first facts.now second more.now result }
    ensures keeps { J.Journal.keeps journal.old journal.new }
{
    journal.commit(first, facts)?;
    journal.commit(second, more)
}

/// Two commits in a session of their own, over a journal that is joined with a second source; both layers are taken
/// off again.
pub fn commit_two_apart<J: Journal, S: FactSource>(
    journal: J,
    source: S,
    first: Stamp,
    facts: &[Fact],
    second: Stamp,
    more: &[Fact],
) -> (J, S, Result<(), Refusal>)
    ensures answer { result.2 ≡ two_answer (later (J.Journal.trace journal) (shown (J.Journal.trace journal))) first facts.now second more.now }
    ensures taken { is_ok result.2 ≡ true → Twice (J.FactSource.facts journal) (J.Journal.trace journal) (J.FactSource.facts result.0) (J.Journal.trace result.0) first facts.now second more.now }
    ensures source { result.1 ≡ source }
{
    let mut session = Session::new(Joined::new(journal, source));
    let answer = commit_two(&mut session, first, facts, second, more);
    let (journal, source) = session.end().end();
    (journal, source, answer)
}
