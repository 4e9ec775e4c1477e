//! Runs of consecutive escapes, as in texts beyond ASCII. They are read without a search for each `%`.

ghost use Rattle.std.specs.Prelude.{◌≡◌, nat_le};
ghost use Rattle.git_syntax.specs.Internal.Runs.{PassesDigits, StripsDigits, StripsEscape};

use crate::escape::is_hexadecimal;

/// Whether an escape with this first digit decodes to a byte that isn't ASCII.
fn is_high(digit: u8) -> bool
    ensures { result ≡ nat_le 56 digit }
{
    b'8' <= digit
}

/// The text after two hexadecimal digits and the escapes that follow them, and whether these digits, after a
/// `%`, and these escapes all decode to ASCII. `None` if the text doesn't begin with two digits.
pub(crate) fn past_run(text: &[u8]) -> Option<(bool, &[u8])>
    ensures { PassesDigits text.now result }
{
    let (high, suffix) = after_digits(text)?;
    let mut low = !is_high(high);
    let mut rest = suffix;
    while let Some((high, suffix)) = after_escape(rest) {
        low &= !is_high(high);
        rest = suffix;
    }
    Some((low, rest))
}

/// The first of the two hexadecimal digits that the text begins with, and the text after them.
#[inline(always)]
fn after_digits(text: &[u8]) -> Option<(u8, &[u8])>
    ensures { StripsDigits text.now result }
{
    match text {
        [high, low, suffix @ ..] if is_hexadecimal(*high) && is_hexadecimal(*low) => {
            Some((*high, suffix))
        }
        _ => None,
    }
}

/// The first digit of the escape that the text begins with, and the text after the escape.
#[inline(always)]
fn after_escape(text: &[u8]) -> Option<(u8, &[u8])>
    ensures { StripsEscape text.now result }
{
    match text {
        [sign, suffix @ ..] if *sign == b'%' => after_digits(suffix),
        _ => None,
    }
}
