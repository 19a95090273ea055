//! Facts and questions, as a script writes them.
ghost use Rattle.std.specs.Prelude.{◌≡◌};
ghost use Rattle.script.specs.Facts.{values, closed, applied, fact, query};
ghost use Rattle.script.specs.Lists.{ListsKept};
ghost use Rattle.script.specs.Reading.{SeenAs};

use crate::numbers::{labelled, wide, wide_unless};
use crate::pieces::{halves, listed, parted};
use facts::{Fact, Query};
use table::{Arguments, Value};

/// A list of values: how many there are, and the first three, with 0 for each that is not there.
pub type Values = Arguments<Value>;

/// One or more values, parted by commas.
pub(crate) fn values(text: &[u8]) -> Option<Values>
    ensures { result ≡ values text.now }
{
    parted(text, 0, wide)
}

/// What stands before the one `)` of a text, which ends it.
fn closed(text: &[u8]) -> Option<&[u8]>
    ensures { SeenAs (λ t. t.now) result (closed text.now) }
{
    let (inside, end) = halves(text, b')')?;
    end.is_empty().then_some(inside)
}

/// The predicate of a word such as `p3(5,7)`, and what stands between the parentheses.
fn applied(word: &[u8]) -> Option<(u8, &[u8])>
    ensures { SeenAs (λ p. (p.0, p.1.now)) result (applied word.now) }
{
    let (name, arguments) = halves(word, b'(')?;
    let predicate = labelled(name, b"p", 255)?;
    Some((predicate, closed(arguments)?))
}

/// The fact that a word is, such as `p3(5,7)` or `p3()`.
pub(crate) fn fact(word: &[u8]) -> Option<Fact>
    ensures { result ≡ fact word.now }
{
    let (predicate, inside) = applied(word)?;
    let values = listed(inside, 0, wide)?;
    Some(Fact { predicate, values })
}

/// The question that a word is, such as `p3(5,_)` or `p3()`.
pub(crate) fn query(word: &[u8]) -> Option<Query>
    ensures { result ≡ query word.now }
{
    let (predicate, inside) = applied(word)?;
    // A place is `_`, or the value that is given.
    let given = listed(inside, None, |place| wide_unless(place, b"_"))?;
    Some(Query { predicate, given })
}

/// The theorem that of values, places and terms their count and the first three are kept.
pub fn lists_stand()
    ensures { ListsKept }
{}
