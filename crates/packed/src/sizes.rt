//! The sizes of marks and facts, in bytes.
ghost use Rattle.std.specs.Prelude.{◌≡◌, min};
ghost use Rattle.journal.specs.Trace.{costs};
ghost use Rattle.packed.specs.Format.{more};
ghost use Rattle.packed.specs.Meaning.{width, fact_cost};

use facts::Fact;

/// The bytes of a value.
pub(crate) const WIDTH: usize = 4;

/// The bytes of a mark.
pub(crate) const MARK: usize = 5;

/// The head of a mark. The head of a fact is at most 127.
pub(crate) const HEAD: u8 = 255;

/// The bytes of a fact with `count` arguments.
pub(crate) fn fact_size(count: u8) -> usize
    ensures { result ≡ fact_cost count }
{
    3 + WIDTH * usize::from(count)
}

/// The bytes that follow the head of an item.
pub(crate) fn body_size(head: u8) -> usize
    ensures { result ≡ more width head }
{
    if head == HEAD {
        MARK - 1
    } else {
        fact_size(head / 32) - 1
    }
}

/// The bytes of these facts, or `most` where they take as many or more. It looks at no fact behind those that reach `most`.
pub(crate) fn facts_size(facts: &[Fact], most: usize) -> usize
    ensures { result ≡ min (costs fact_cost facts.now) most }
{
    let mut size: usize = 0;
    for fact in facts {
        size = size.saturating_add(fact_size(fact.values.count));
        if size >= most {
            return most;
        }
    }
    size
}
