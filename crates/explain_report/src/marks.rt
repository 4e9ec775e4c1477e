//! Texts cut around a mark, and comparisons with lists of words.

ghost use Rattle.std.specs.Prelude.{◌≡◌, option_map};
ghost use Rattle.std.specs.List.{list_any};
ghost use Rattle.memchr.specs.Find.{FindsNeedle};
ghost use Rattle.git_audit.specs.Dangers.{has_front};
ghost use Rattle.explain_report.specs.Marks as spec;

use bstr::ByteSlice;

/// The texts before and after the first such mark, if there is one.
pub(crate) fn halves<'a>(text: &'a [u8], mark: &[u8]) -> Option<(&'a [u8], &'a [u8])>
    ensures { option_map (λ p. (p.0.now, p.1.now)) result ≡ spec.halves mark.now text.now }
{
    let at = place_of(text, mark)?;
    Some((text.split_at(at).0, text.split_at(at + mark.len()).1))
}

/// The offset of the first such mark, if there is one. A search for its first byte costs less than one for all of it
/// if the text is short.
fn place_of(text: &[u8], mark: &[u8]) -> Option<usize>
    ensures { FindsNeedle text.now mark.now 0 result }
{
    let [first, ..] = mark else {
        return Some(0);
    };
    let mut from = 0usize;
    while let Some(at) = text.split_at(from).1.find_byte(*first) {
        from += at;
        if text.split_at(from).1.starts_with(mark) {
            return Some(from);
        }
        from += 1;
    }
    None
}

/// The texts before and after the last such mark, if there is one. Most texts have none, and aren't searched from the end.
pub(crate) fn last_halves<'a>(text: &'a [u8], mark: &[u8]) -> Option<(&'a [u8], &'a [u8])>
    ensures { option_map (λ p. (p.0.now, p.1.now)) result ≡ spec.last_halves mark.now text.now }
{
    match place_of(text, mark) {
        Some(_) => text.rsplit_once_str(mark),
        None => None,
    }
}

/// Whether the text contains such a mark.
pub(crate) fn holds(text: &[u8], mark: &[u8]) -> bool
    ensures { result ≡ spec.holds mark.now text.now }
{
    halves(text, mark).is_some()
}

/// The text before the first such mark, or the whole text if there is none.
pub(crate) fn before<'a>(text: &'a [u8], mark: &[u8]) -> &'a [u8]
    ensures { result.now ≡ spec.before mark.now text.now }
{
    match halves(text, mark) {
        Some((front, _)) => front,
        None => text,
    }
}

/// The text after the last such mark, or the whole text if there is none.
pub(crate) fn suffix<'a>(text: &'a [u8], mark: &[u8]) -> &'a [u8]
    ensures { result.now ≡ spec.suffix mark.now text.now }
{
    match last_halves(text, mark) {
        Some((_, rest)) => rest,
        None => text,
    }
}

/// Whether the text is one of these.
pub(crate) fn is_among(text: &[u8], words: &[&str]) -> bool
    ensures { result ≡ list_any (λ word. spec.is_word text.now word.now) words.now }
{
    words.iter().any(|word| is_word(text, word))
}

/// Whether the text is the word.
fn is_word(text: &[u8], word: &str) -> bool
    ensures { result ≡ spec.is_word text.now word.now }
{
    text == word.as_bytes()
}

/// Whether the text is one of these, ignoring letter case.
pub(crate) fn is_among_in_any_case(text: &[u8], words: &[&str]) -> bool
    ensures { result ≡ list_any (λ word. spec.is_word_in_any_case text.now word.now) words.now }
{
    words.iter().any(|word| is_word_in_any_case(text, word))
}

/// Whether the text is the word, ignoring letter case.
fn is_word_in_any_case(text: &[u8], word: &str) -> bool
    ensures { result ≡ spec.is_word_in_any_case text.now word.now }
{
    text.eq_ignore_ascii_case(word.as_bytes())
}

/// Whether the text begins with one of these.
pub(crate) fn begins_with_some(text: &[u8], fronts: &[&str]) -> bool
    ensures { result ≡ list_any (λ front. has_front text.now front.now) fronts.now }
{
    fronts.iter().any(|front| begins_with(text, front))
}

/// Whether the text begins with this. Most texts differ in the first byte.
fn begins_with(text: &[u8], front: &str) -> bool
    ensures { result ≡ has_front text.now front.now }
{
    match (text, front.as_bytes()) {
        ([first, ..], [wanted, ..]) if first != wanted => false,
        _ => text.starts_with(front.as_bytes()),
    }
}
