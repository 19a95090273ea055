//! Parting a text at a mark, and reading lists.
ghost use Rattle.std.specs.Prelude.{◌≡◌};
ghost use Rattle.std.specs.Iterator.{AlwaysYields, IsFinite};
ghost use Rattle.table.specs.Arguments.{no_arguments};
ghost use Rattle.script.specs.Items.{ReadsAs, with_item, with_items, listed, parted};
ghost use Rattle.script.specs.Pieces.{pieces};
ghost use Rattle.script.specs.Reading.{SeenAs, two};

use table::Arguments;

/// The two pieces of a text that has the mark just once.
pub(crate) fn halves(text: &[u8], mark: u8) -> Option<(&[u8], &[u8])>
    ensures { SeenAs (λ p. (p.0.now, p.1.now)) result (two (pieces mark text.now)) }
{
    let at = text.iter().position(|byte| *byte == mark)?;
    let (front, back) = (&text[..at], &text[at + 1..]);
    if back.contains(&mark) {
        None
    } else {
        Some((front, back))
    }
}

/// What each of the texts is read as, in a list, if each can be read.
pub(crate) fn arguments<
    'a,
    T: Copy,
    I: Iterator<Item = &'a [u8]> + Drop,
    F: Fn(&'a [u8]) -> Option<T>,
>(mut texts: I, filler: T, read: F) -> Option<Arguments<T>>
    requires can { I.can_next texts }
    requires ends { IsFinite (I.remaining texts) }
    requires callable { F.IsAlwaysCallable read }
    ensures { (all : _) (item : _) → AlwaysYields I.next_gives (λ text. text.now) texts all
        → ReadsAs (F.post read) item → result ≡ with_items item (no_arguments filler) all }
{
    texts.try_fold(
        Arguments::none(filler),
        |list, text| -> Option<Arguments<T>>
            requires { F.IsAlwaysCallable read }
            ensures { (item : _) → ReadsAs (F.post read) item → result ≡ with_item item list text.now }
        { list.with(read(text)?) },
    )
}

/// One or more items, parted by commas.
pub(crate) fn parted<'a, T: Copy, F: Fn(&'a [u8]) -> Option<T>>(
    text: &'a [u8],
    filler: T,
    read: F,
) -> Option<Arguments<T>>
    requires { F.IsAlwaysCallable read }
    ensures { (item : _) → ReadsAs (F.post read) item → result ≡ parted item filler text.now }
{
    arguments(text.split(|byte| *byte == b','), filler, read)
}

/// No item, or some that are parted by commas.
pub(crate) fn listed<'a, T: Copy, F: Fn(&'a [u8]) -> Option<T>>(
    text: &'a [u8],
    filler: T,
    read: F,
) -> Option<Arguments<T>>
    requires { F.IsAlwaysCallable read }
    ensures { (item : _) → ReadsAs (F.post read) item → result ≡ listed item filler text.now }
{
    if text.is_empty() {
        Some(Arguments::none(filler))
    } else {
        parted(text, filler, read)
    }
}
