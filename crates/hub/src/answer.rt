//! What came of a command, and how it is printed.
ghost use Rattle.std.specs.Fmt.{WritesOnOk};
ghost use Rattle.std.specs.Prelude.{Some};
ghost use Rattle.hub.specs.Answers.{nodes, spaced, printed};

use refusal::Refusal;
use std::fmt;

/// What came of a command.
#[derive(Drop)]
pub enum Answer {
    EmptyTable,
    Predicate(u8),
    Node(usize),
    /// The policy's wait in seconds, and its cached nodes.
    Accepted { wait: u64, cached: Vec<usize> },
    Refused(Refusal),
    NothingToDo,
}

impl fmt::Display for Answer {
    ghost output = { λ a. Some (printed a) };

    fn fmt<W: fmt::Write>(&self, f: &mut fmt::Formatter<W>) -> fmt::Result {
        match self {
            Answer::EmptyTable => write!(f, "empty table"),
            Answer::Predicate(predicate) => write!(f, "predicate {predicate}"),
            Answer::Node(node) => write!(f, "node {node}"),
            Answer::Accepted { wait, cached } => {
                write!(f, "accepted, wait {wait}, cached")?;
                write_cached(f, cached.as_slice())
            }
            Answer::Refused(refusal) => write!(f, "{refusal}"),
            Answer::NothingToDo => write!(f, "nothing to do"),
        }
    }
}

/// Each cached node behind a space, or ` none`.
fn write_cached<W: fmt::Write>(f: &mut fmt::Formatter<W>, cached: &[usize]) -> fmt::Result
    ensures { WritesOnOk W.write_str_gives f.old result (nodes cached.now) f.new }
{
    if cached.is_empty() {
        write!(f, " none")
    } else {
        write_spaced(f, cached)
    }
}

/// Each number behind a space.
fn write_spaced<W: fmt::Write>(f: &mut fmt::Formatter<W>, numbers: &[usize]) -> fmt::Result
    ensures { WritesOnOk W.write_str_gives f.old result (spaced numbers.now) f.new }
{
    for number in numbers {
        write!(f, " {number}")?;
    }
    Ok(())
}
