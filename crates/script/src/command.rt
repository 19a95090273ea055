//! The commands of a script, and the reading of a line into one.
ghost use Rattle.std.specs.Prelude.{◌≡◌};
ghost use Rattle.script.specs.Commands.{passed_over, lone_number, pred, sized, keeper, draft, add, layers, all_facts, commit, late, after, find, command_of, command_on, fact_on};
ghost use Rattle.script.specs.Words.{words_left};

use crate::applied::{Values, fact, query, values};
use crate::keywords::Keyword;
use crate::kinds::{JournalKind, KeeperKind};
use crate::nodes;
use crate::numbers::{labelled, number, small, wide};
use crate::verbs::Verb;
use crate::words::{Words, alone};
use facts::{Fact, Query};
use sets::SmallSet;
use table::{Declaration, Node};

/// A command of a script.
#[derive(Clone, Copy, Debug, PartialEq, Eq)]
pub enum Command {
    Table,
    Pred {
        predicate: u8,
        declaration: Declaration,
    },
    Node(Node),
    Check,
    Journal {
        kind: JournalKind,
        units: u64,
    },
    Keeper(KeeperKind),
    Open {
        joined: bool,
        session: bool,
    },
    Close,
    Buffer(u64),
    Draft {
        stamp: u32,
    },
    Add(Fact),
    Abandon,
    Commit,
    /// A commit with facts of its own, which stand in the line behind the stamp.
    CommitFacts {
        stamp: u32,
    },
    Late {
        position: u64,
        fact: Fact,
    },
    Poll,
    Polls,
    Entry(u64),
    Entries,
    Rows(u64),
    Find {
        position: u64,
        query: Query,
        after: Option<Values>,
    },
    Rehearse {
        kind: JournalKind,
        units: u64,
    },
    End,
}

/// Whether a line has no command to be read: it is empty, or begins with `#`.
pub fn is_passed_over(line: &[u8]) -> bool
    ensures { result ≡ passed_over line.now }
{
    matches!(line, [] | [b'#', ..])
}

/// The number that the one word left is, if it is at most `most`.
fn lone_number(words: Words, most: u64) -> Option<u64>
    ensures { result ≡ lone_number most (words_left words.entry) }
{
    number(words.one()?, most)
}

fn pred(words: Words) -> Option<Command>
    ensures { result ≡ pred (words_left words.entry) }
{
    let (name, args, given) = words.three()?;
    let predicate = small(name, 63)?;
    let count = labelled(args, b"args=", 255)?;
    let mask = labelled(given, b"given=", 255)?;
    let declaration = Declaration {
        count,
        given: SmallSet::from(mask),
    };
    Some(Command::Pred {
        predicate,
        declaration,
    })
}

/// A kind of journal, and its units.
fn sized(words: Words) -> Option<(JournalKind, u64)>
    ensures { result ≡ sized (words_left words.entry) }
{
    let (kind, units) = words.two()?;
    Some((JournalKind::read(kind)?, number(units, u64::MAX)?))
}

fn open(mut words: Words) -> Option<Command>
    ensures { result ≡ layers (words_left words.entry) }
{
    let joined = words.take_if(b"joined");
    let session = words.take_if(b"session");
    alone(Command::Open { joined, session }, words)
}

/// Whether each word is a fact.
fn all_facts(mut words: Words) -> bool
    ensures { result ≡ all_facts (words_left words.entry) }
{
    words.all(|word| fact(word).is_some())
}

fn commit(mut words: Words) -> Option<Command>
    ensures { result ≡ commit (words_left words.entry) }
{
    let Some(word) = words.next() else {
        return Some(Command::Commit);
    };
    let stamp = wide(word)?;
    all_facts(words).then_some(Command::CommitFacts { stamp })
}

fn late(words: Words) -> Option<Command>
    ensures { result ≡ late (words_left words.entry) }
{
    let (place, word) = words.two()?;
    let position = number(place, u64::MAX)?;
    let fact = fact(word)?;
    Some(Command::Late { position, fact })
}

/// The values behind `after`, or none if nothing is left.
fn after(mut words: Words) -> Option<Option<Values>>
    ensures { result ≡ after (words_left words.entry) }
{
    // A match: that no word is left is an answer of its own.
    match words.next() {
        None => Some(None),
        Some(b"after") => values(words.one()?).map(Some),
        Some(_) => None,
    }
}

fn find(mut words: Words) -> Option<Command>
    ensures { result ≡ find (words_left words.entry) }
{
    let position = number(words.next()?, u64::MAX)?;
    let query = query(words.next()?)?;
    let after = after(words)?;
    Some(Command::Find {
        position,
        query,
        after,
    })
}

fn keeper(words: Words) -> Option<Command>
    ensures { result ≡ keeper (words_left words.entry) }
{
    KeeperKind::read(words.one()?).map(Command::Keeper)
}

fn draft(words: Words) -> Option<Command>
    ensures { result ≡ draft (words_left words.entry) }
{
    let stamp = wide(words.one()?)?;
    Some(Command::Draft { stamp })
}

fn add(words: Words) -> Option<Command>
    ensures { result ≡ add (words_left words.entry) }
{
    fact(words.one()?).map(Command::Add)
}

/// The command of this verb that the words behind it describe.
fn command_of(verb: Verb, words: Words) -> Option<Command>
    ensures { result ≡ command_of verb (words_left words.entry) }
{
    // A match and no table of readers: each verb has its arm, or this does not compile.
    match verb {
        Verb::Table => alone(Command::Table, words),
        Verb::Pred => pred(words),
        Verb::Node => nodes::read(words).map(Command::Node),
        Verb::Check => alone(Command::Check, words),
        Verb::Journal => sized(words).map(|(kind, units)| Command::Journal { kind, units }),
        Verb::Keeper => keeper(words),
        Verb::Open => open(words),
        Verb::Close => alone(Command::Close, words),
        Verb::Buffer => lone_number(words, 1000).map(Command::Buffer),
        Verb::Draft => draft(words),
        Verb::Add => add(words),
        Verb::Abandon => alone(Command::Abandon, words),
        Verb::Commit => commit(words),
        Verb::Late => late(words),
        Verb::Poll => alone(Command::Poll, words),
        Verb::Polls => alone(Command::Polls, words),
        Verb::Entry => lone_number(words, u64::MAX).map(Command::Entry),
        Verb::Entries => alone(Command::Entries, words),
        Verb::Rows => lone_number(words, u64::MAX).map(Command::Rows),
        Verb::Find => find(words),
        Verb::Rehearse => sized(words).map(|(kind, units)| Command::Rehearse { kind, units }),
        Verb::End => alone(Command::End, words),
    }
}

/// The command that a line is, or none if it cannot be read as one.
pub fn read(line: &[u8]) -> Option<Command>
    ensures { result ≡ command_on line.now }
{
    let mut words = Words::from(line);
    let word = words.next()?;
    command_of(Verb::read(word)?, words)
}

/// The fact at this index, from 0, of those that stand in a line behind its verb and stamp.
pub fn fact_at(line: &[u8], index: usize) -> Option<Fact>
    ensures { result ≡ fact_on line.now index }
{
    let mut words = Words::from(line);
    let (_verb, _stamp) = (words.next()?, words.next()?);
    fact(words.nth(index)?)
}
