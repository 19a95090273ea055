//! The arguments of a predicate, of any kind: terms, values, or values that may be given.
ghost use Rattle.std.specs.Prelude.{◌≡◌, ◌≤◌, length};
ghost use Rattle.table.specs.Arguments.{no_arguments, kept, with_argument};

/// Arguments of a predicate: how many there are, and the first three. What stands at a place behind them means nothing.
#[derive(Clone, Copy, PartialEq, Eq, Debug)]
pub struct Arguments<T> {
    pub count: u8,
    pub first: [T; 3],
}

impl<T: Copy> Arguments<T> {
    /// No arguments yet, with this at all places.
    pub fn none(filler: T) -> Arguments<T>
        ensures { result ≡ no_arguments filler }
    {
        Arguments {
            count: 0,
            first: [filler; 3],
        }
    }

    /// The arguments, as far as they are kept.
    pub fn kept(&self) -> &[T]
        ensures value { result.now ≡ kept self.now }
        ensures few { length result.now ≤ 3 }
        ensures whole { length self.now.first ≡ 3 }
    {
        &self.first[..usize::from(self.count).min(3)]
    }

    /// These and one more behind them; none if a byte can't count it.
    pub fn with(self, argument: T) -> Option<Arguments<T>>
        ensures { result ≡ with_argument self argument }
    {
        let count = self.count.checked_add(1)?;
        let place = usize::from(self.count);
        let mut first = self.first;
        // A test and an index: through `get_mut` a proof does not learn what the array then holds.
        if place < first.len() {
            first[place] = argument;
        }
        Some(Arguments { count, first })
    }
}
