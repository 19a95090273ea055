//! The words of a line.
ghost use Rattle.std.specs.Prelude.{◌≡◌};
ghost use Rattle.script.specs.Reading.{SeenAs, is_empty, one, two, three, alone};
ghost use Rattle.script.specs.Words.{words, words_left, optional};

/// The words of a line that are still to be read.
#[derive(Clone, Copy)]
pub(crate) struct Words<'a> {
    left: &'a [u8],
}

impl<'a> Iterator for Words<'a> {
    ghost use Rattle.std.specs.Iterator.{YieldsFirstBy, item_count};
    ghost use Rattle.script.specs.Words.{words_left};

    type Item = &'a [u8];

    ghost next_gives = { YieldsFirstBy (λ word. word.now) words_left };

    ghost remaining = { item_count words_left };

    fn next(&mut self) -> Option<&'a [u8]> {
        let start = self.left.iter().position(|byte| *byte != b' ')?;
        let (_, text) = self.left.split_at(start);
        let end = text
            .iter()
            .position(|byte| *byte == b' ')
            .unwrap_or(text.len());
        let (word, left) = text.split_at(end);
        self.left = left;
        Some(word)
    }
}

impl<'a> From<&'a [u8]> for Words<'a> {
    ghost from_gives = { λ line ws. words_left ws ≡ words line.now };

    fn from(line: &'a [u8]) -> Words<'a> {
        Words { left: line }
    }
}

impl<'a> Words<'a> {
    pub(crate) fn is_empty(mut self) -> bool
        ensures { result ≡ is_empty (words_left self.entry) }
    {
        self.next().is_none()
    }

    /// Takes the next word if it is this text, and answers whether it was.
    pub(crate) fn take_if(&mut self, text: &[u8]) -> bool
        ensures { (result, words_left self.new) ≡ optional text.now (words_left self.old) }
    {
        let mut behind = *self;
        let taken = behind.next().is_some_and(|word| word == text);
        if taken {
            *self = behind;
        }
        taken
    }

    // One function for each count: an `Option<[&[u8]; N]>` over a const `N` gets no proof yet.
    /// The word that is left, if it is just one.
    pub(crate) fn one(mut self) -> Option<&'a [u8]>
        ensures { SeenAs (λ w. w.now) result (one (words_left self.entry)) }
    {
        let word = self.next()?;
        self.is_empty().then_some(word)
    }

    /// The words that are left, if they are just two.
    pub(crate) fn two(mut self) -> Option<(&'a [u8], &'a [u8])>
        ensures { SeenAs (λ p. (p.0.now, p.1.now)) result (two (words_left self.entry)) }
    {
        let word = self.next()?;
        Some((word, self.one()?))
    }

    /// The words that are left, if they are just three.
    pub(crate) fn three(mut self) -> Option<(&'a [u8], &'a [u8], &'a [u8])>
        ensures { SeenAs (λ p. (p.0.now, p.1.now, p.2.now)) result (three (words_left self.entry)) }
    {
        let word = self.next()?;
        let (second, third) = self.two()?;
        Some((word, second, third))
    }
}

/// The value, if no word is left.
pub(crate) fn alone<T: Copy>(value: T, words: Words) -> Option<T>
    ensures { result ≡ alone value (words_left words.entry) }
{
    words.is_empty().then_some(value)
}
