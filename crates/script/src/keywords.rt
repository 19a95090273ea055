//! Words that name one of a few values.
ghost use Rattle.std.specs.Prelude.{◌≡◌, ℕ, List, Some};
ghost use Rattle.script.specs.Keywords.{spelled, Names};

/// A value that a script names by a word.
pub(crate) trait Keyword: Copy + 'static {
    ghost spelling: { Self → List ℕ };

    ghost all: { List Self };

    // A function, since no clause can name a constant slice.
    /// Every value.
    fn all() -> &'static [Self]
        ensures { result.now ≡ all };

    fn spelling(self) -> &'static [u8]
        ensures { result.now ≡ spelling self };

    // No two are spelled alike, and none is left out.
    ghost named: { (x : Self) → spelled spelling all (spelling x) ≡ Some x };

    /// The value that a word names.
    final fn read(word: &[u8]) -> Option<Self>
        ensures value { result ≡ spelled spelling all word.now }
        ensures names { Names spelling word.now result }
    {
        Self::all()
            .iter()
            .find(|value| value.spelling() == word)
            .copied()
    }
}
