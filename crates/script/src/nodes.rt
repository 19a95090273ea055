//! Reading the nodes of a table.
ghost use Rattle.std.specs.Prelude.{◌≡◌};
ghost use Rattle.table.specs.Arguments.{no_arguments};
ghost use Rattle.table.specs.declared.node.Term.TheVariants.{Constant};
ghost use Rattle.script.specs.Items.{with_items};
ghost use Rattle.script.specs.Nodes.{term, with_variable, variables, interval_of, operands, timed, timed_operands, atom, exists, forall, timed_node, node_of, node_in};
ghost use Rattle.script.specs.Numbers.{number};
ghost use Rattle.script.specs.Pieces.{pieces};
ghost use Rattle.script.specs.Reading.{try_fold};
ghost use Rattle.script.specs.Words.{words_left};

use crate::keywords::Keyword;
use crate::numbers::{behind, labelled, small, wide, wide_unless};
use crate::operators::{Operator, Timed};
use crate::pieces::arguments;
use crate::words::{Words, alone};
use sets::SmallSet;
use table::{Interval, Node, Term, Terms};

/// An argument of an atom: a variable such as `v3`, or a value.
fn term(word: &[u8]) -> Option<Term>
    ensures { result ≡ term word.now }
{
    // A match: each side reads a kind of its own.
    match behind(word, b"v") {
        Some(name) => small(name, 255).map(Term::Variable),
        None => wide(word).map(Term::Constant),
    }
}

/// The terms that all these words are.
fn terms(words: Words) -> Option<Terms>
    ensures { result ≡ with_items term (no_arguments (Constant 0)) (words_left words.entry) }
{
    arguments(words, Term::Constant(0), term)
}

fn with_variable(mask: u8, piece: &[u8]) -> Option<u8>
    ensures { result ≡ with_variable mask piece.now }
{
    Some(mask | (1 << labelled(piece, b"v", 7)?))
}

/// The bits of the variables of a text, parted by commas.
fn mask(text: &[u8]) -> Option<u8>
    ensures { result ≡ try_fold with_variable 0 (pieces 44 text.now) }
{
    text.split(|byte| *byte == b',').try_fold(0, with_variable)
}

/// The variables of a quantifier: `-` for none, or such as `v0,v3`.
fn variables(word: &[u8]) -> Option<SmallSet>
    ensures { result ≡ variables word.now }
{
    let mask = match word {
        b"-" => 0,
        _ => mask(word)?,
    };
    Some(SmallSet::from(mask))
}

fn seconds(lower: &[u8], higher: &[u8]) -> Option<Interval>
    ensures { result ≡ interval_of lower.now higher.now }
{
    let lo = wide(lower)?;
    let hi = wide_unless(higher, b"none")?;
    Some(Interval { lo, hi })
}

/// A node that is named by its number.
fn child(word: &[u8]) -> Option<usize>
    ensures { result ≡ number 255 word.now }
{
    small(word, 255).map(usize::from)
}

fn operands(words: Words) -> Option<(usize, usize)>
    ensures { result ≡ operands (words_left words.entry) }
{
    let (left, right) = words.two()?;
    Some((child(left)?, child(right)?))
}

fn timed(words: Words) -> Option<(Interval, usize)>
    ensures { result ≡ timed (words_left words.entry) }
{
    let (lower, higher, body) = words.three()?;
    Some((seconds(lower, higher)?, child(body)?))
}

fn timed_operands(mut words: Words) -> Option<(Interval, usize, usize)>
    ensures { result ≡ timed_operands (words_left words.entry) }
{
    let lower = words.next()?;
    let (higher, left, right) = words.three()?;
    Some((seconds(lower, higher)?, child(left)?, child(right)?))
}

fn atom(mut words: Words) -> Option<Node>
    ensures { result ≡ atom (words_left words.entry) }
{
    let predicate = small(words.next()?, 255)?;
    let terms = terms(words)?;
    Some(Node::Atom { predicate, terms })
}

fn exists(words: Words) -> Option<Node>
    ensures { result ≡ exists (words_left words.entry) }
{
    let (bound, body) = words.two()?;
    Some(Node::Exists {
        variables: variables(bound)?,
        body: child(body)?,
    })
}

fn forall(words: Words) -> Option<Node>
    ensures { result ≡ forall (words_left words.entry) }
{
    let (bound, left, right) = words.three()?;
    Some(Node::Forall {
        variables: variables(bound)?,
        left: child(left)?,
        right: child(right)?,
    })
}

fn timed_node(operator: Timed, interval: Interval, body: usize) -> Node
    ensures { result ≡ timed_node operator interval body }
{
    match operator {
        Timed::Prev => Node::Prev { interval, body },
        Timed::Once => Node::Once { interval, body },
        Timed::Hist => Node::Hist { interval, body },
        Timed::Next => Node::Next { interval, body },
        Timed::Event => Node::Event { interval, body },
        Timed::Always => Node::Always { interval, body },
    }
}

/// The node of this operator that the words behind it describe.
fn node_of(operator: Operator, words: Words) -> Option<Node>
    ensures { result ≡ node_of operator (words_left words.entry) }
{
    // A match and no table of readers: each operator has its arm, or this does not compile.
    match operator {
        Operator::True => alone(Node::True, words),
        Operator::False => alone(Node::False, words),
        Operator::Atom => atom(words),
        Operator::And => operands(words).map(|(left, right)| Node::And { left, right }),
        Operator::Or => operands(words).map(|(left, right)| Node::Or { left, right }),
        Operator::Exists => exists(words),
        Operator::Forall => forall(words),
        Operator::Timed(operator) => {
            timed(words).map(|(interval, body)| timed_node(operator, interval, body))
        }
        Operator::Since => timed_operands(words).map(|(interval, left, right)| Node::Since {
            interval,
            left,
            right,
        }),
        Operator::Until => timed_operands(words).map(|(interval, left, right)| Node::Until {
            interval,
            left,
            right,
        }),
    }
}

/// The node that the words describe: an operator, and what belongs to it.
pub(crate) fn read(mut words: Words) -> Option<Node>
    ensures { result ≡ node_in (words_left words.entry) }
{
    let operator = Operator::read(words.next()?)?;
    node_of(operator, words)
}
