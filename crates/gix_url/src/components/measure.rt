//! The lengths of decodings, computed along the spelling.

ghost use Rattle.std.specs.Prelude.{◌≡◌, ◌+◌, ◌≤◌, ◌∷◌, length};
ghost use Rattle.percent_encoding.specs.Percent.{percent_decode};
ghost use Rattle.gix_url.specs.Internal.Meanings.{denoted_by};

use git_syntax::escape::begins_with_digits;

/// The length of the text's decoding, or of the text itself if its escapes are literal.
#[inline(always)]
pub(super) fn denoted_len(text: &[u8], escaped: bool) -> usize
    ensures { result ≡ length (denoted_by escaped text.now) }
{
    if escaped {
        decoded_len(text)
    } else {
        text.len()
    }
}

/// The length of the text's decoding.
fn decoded_len(text: &[u8]) -> usize
    ensures { result ≡ length (percent_decode text.now) }
{
    let mut len = 0;
    let mut rest = text;
    while let [first, suffix @ ..] = rest {
        rest = after_unit(*first, suffix);
        len += 1;
    }
    len
}

/// The text after a byte, and after its digits if it begins an escape.
#[inline(always)]
fn after_unit(first: u8, suffix: &[u8]) -> &[u8]
    ensures decoded { length (percent_decode (first ∷ suffix.now)) ≡ length (percent_decode result.now) + 1 }
    ensures shorter { length result.now ≤ length suffix.now }
{
    if first != b'%' {
        return suffix;
    }
    if !begins_with_digits(suffix) {
        return suffix;
    }
    suffix.split_at(2).1
}
