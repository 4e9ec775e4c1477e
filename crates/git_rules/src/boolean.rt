//! Texts that Git reads as boolean values, in environment variables and in configuration.

ghost use Rattle.std.specs.Prelude.{◌≡◌};
ghost use Rattle.git_rules.specs.Booleans.{boolean_of, is_no, is_yes};

use crate::number::{INT_MAX, read_number};
use crate::word::is_word;

/// The boolean value of a text as Git reads it, or `None` if Git refuses the text.
///
/// `true`, `yes` and `on` are true; `false`, `no`, `off` and the empty text are false, ignoring letter case
/// (ASCII). A number of at most 2^31 - 1, as [`read_number`] reads it, is true unless it is 0. git-config(1)
/// defines boolean values so, and Git 2.39.5 reads them so. A key without a value, which Git reads as true, has no
/// text: the caller handles it.
///
/// ```
/// fn is_on(value: &[u8]) -> bool {
///     read_boolean(value) == Some(true) // of `Yes`, `1`, `-0x10` and `2k`, but not of `off`, `00`, `2g` and `1 `
/// }
/// ```
pub fn read_boolean(text: &[u8]) -> Option<bool>
    ensures { result ≡ boolean_of text.now }
{
    if is_yes(text) {
        return Some(true);
    }
    if is_no(text) {
        return Some(false);
    }
    let number = read_number(text, INT_MAX)?;
    Some(number != 0)
}

/// Whether the text is a word for true.
fn is_yes(text: &[u8]) -> bool
    ensures { result ≡ is_yes text.now }
{
    is_word(text, "true") || is_word(text, "yes") || is_word(text, "on")
}

/// Whether the text is a word for false, or empty.
fn is_no(text: &[u8]) -> bool
    ensures { result ≡ is_no text.now }
{
    is_word(text, "") || is_word(text, "false") || is_word(text, "no") || is_word(text, "off")
}
