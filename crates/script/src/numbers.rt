//! Reading a number up to a bound.
ghost use Rattle.std.specs.Prelude.{◌≡◌, ◌≤◌, IfSome};
ghost use Rattle.script.specs.Numbers.{number, wide, wide_unless, one_more, labelled};
ghost use Rattle.script.specs.Reading.{SeenAs, behind};

/// The value with one digit more behind it, if the byte is a digit and the value stays at most `most`.
fn one_more(value: u64, byte: u8, most: u64) -> Option<u64>
    ensures { result ≡ one_more most value byte }
{
    if !byte.is_ascii_digit() {
        return None;
    }
    let more = value.checked_mul(10)?.checked_add(u64::from(byte - b'0'))?;
    (more <= most).then_some(more)
}

/// The number that a word is, if it is one or more digits and at most `most`.
pub(crate) fn number(word: &[u8], most: u64) -> Option<u64>
    ensures value { result ≡ number most word.now }
    ensures bound { IfSome result (λ n. n ≤ most) }
{
    if word.is_empty() {
        return None;
    }
    word.iter()
        .try_fold(0, |value, byte| one_more(value, *byte, most))
}

/// The number that a word is, if it is at most `most`, which fits a byte.
pub(crate) fn small(word: &[u8], most: u8) -> Option<u8>
    ensures value { result ≡ number most word.now }
    ensures bound { IfSome result (λ n. n ≤ most) }
{
    u8::try_from(number(word, u64::from(most))?).ok()
}

// Beside `small`, and not one function with it: a trait that says which number an `N: TryFrom<u64>` is would be longer.
/// The number that a word is, if it fits 32 bits: a value, a stamp or an end of an interval.
pub(crate) fn wide(word: &[u8]) -> Option<u32>
    ensures { result ≡ wide word.now }
{
    u32::try_from(number(word, u64::from(u32::MAX))?).ok()
}

/// The number that a word is, if it fits 32 bits; a word that is `absent` stands for none.
pub(crate) fn wide_unless(word: &[u8], absent: &[u8]) -> Option<Option<u32>>
    ensures { result ≡ wide_unless absent.now word.now }
{
    if word == absent {
        Some(None)
    } else {
        wide(word).map(Some)
    }
}

/// The rest of a word that begins with the label.
#[tactic(auto, unfolding(crate::specs::Reading::behind))]
pub(crate) fn behind<'a>(word: &'a [u8], label: &[u8]) -> Option<&'a [u8]>
    ensures { SeenAs (λ rest. rest.now) result (behind label.now word.now) }
{
    word.strip_prefix(label)
}

/// The number behind a label, if it is at most `most`.
pub(crate) fn labelled(word: &[u8], label: &[u8], most: u8) -> Option<u8>
    ensures value { result ≡ labelled label.now most word.now }
    ensures bound { IfSome result (λ n. n ≤ most) }
{
    small(behind(word, label)?, most)
}
