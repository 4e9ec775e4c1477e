//! Whether a text is one edit away from a word.

ghost use Rattle.std.specs.Prelude.{◌≡◌};
ghost use Rattle.std.specs.List.{list_any};
ghost use Rattle.explain_report.specs.Slips as spec;

/// Whether the text is at a distance of one edit from one of these.
pub(super) fn is_near_one_of(text: &[u8], words: &[&str]) -> bool
    ensures { result ≡ list_any (λ word. spec.is_one_edit text.now word.now) words.now }
{
    words.iter().any(|word| is_one_edit(text, word.as_bytes()))
}

/// Whether one edit turns a text into the other, after the front that both share: one byte is added, removed or
/// replaced, or two neighbours are swapped.
fn is_one_edit(text: &[u8], other: &[u8]) -> bool
    ensures { result ≡ spec.is_one_edit text.now other.now }
{
    let (mut text, mut other) = (text, other);
    while let ([first, rest @ ..], [second, others @ ..]) = (text, other) {
        if first != second {
            break;
        }
        (text, other) = (rest, others);
    }
    is_edited(text, other)
}

/// Whether one edit at the front turns a text into the other.
fn is_edited(text: &[u8], other: &[u8]) -> bool
    ensures { result ≡ spec.is_edited text.now other.now }
{
    is_replaced(text, other)
        || is_longer(text, other)
        || is_longer(other, text)
        || is_swapped(text, other)
}

/// Whether only the first bytes of two texts differ.
fn is_replaced(text: &[u8], other: &[u8]) -> bool
    ensures { result ≡ spec.is_replaced text.now other.now }
{
    match (text, other) {
        ([_, rest @ ..], [_, others @ ..]) => rest == others,
        _ => false,
    }
}

/// Whether a text is one byte followed by the other text.
fn is_longer(text: &[u8], other: &[u8]) -> bool
    ensures { result ≡ spec.is_longer text.now other.now }
{
    match text {
        [_, rest @ ..] => rest == other,
        [] => false,
    }
}

/// Whether two texts begin with the same two bytes in opposite orders, and are otherwise equal.
fn is_swapped(text: &[u8], other: &[u8]) -> bool
    ensures { result ≡ spec.is_swapped text.now other.now }
{
    match (text, other) {
        ([a, b, rest @ ..], [c, d, others @ ..]) => a == d && b == c && rest == others,
        _ => false,
    }
}
