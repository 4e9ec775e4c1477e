//! Facts about the bytes of a text, which are decided once and passed on.

ghost use Rattle.std.specs.Prelude.{◌≡◌, true};
ghost use Rattle.git_syntax.specs.Escapes.{is_printable};
ghost use Rattle.git_syntax.specs.Internal.ByteClasses.{HasByteClass, knows_ascii, knows_plain, knows_printable};

use crate::bytes::cut;
use crate::runs::past_run;
use crate::text::{is_plain, is_printable};

/// A fact about the bytes of a text.
#[derive(Clone, Copy)]
pub(crate) enum ByteClass {
    /// Each byte is printable ASCII, and none is `%`.
    Plain,
    /// Each byte is printable ASCII, and each `%` begins an escape of an ASCII byte.
    Ascii,
    /// Each byte is printable ASCII, and each `%` begins an escape.
    Escaped,
    /// Nothing is known.
    Other,
}

impl ByteClass {
    /// Whether the text is known to be printable ASCII in which each `%` begins an escape.
    pub(crate) fn is_printable(self) -> bool
        ensures { result ≡ knows_printable self }
    {
        match self {
            ByteClass::Plain => true,
            ByteClass::Ascii => true,
            ByteClass::Escaped => true,
            ByteClass::Other => false,
        }
    }

    /// Whether the text is known to decode to ASCII.
    pub(crate) fn is_ascii(self) -> bool
        ensures { result ≡ knows_ascii self }
    {
        match self {
            ByteClass::Plain => true,
            ByteClass::Ascii => true,
            ByteClass::Escaped => false,
            ByteClass::Other => false,
        }
    }

    /// Whether the text is known to have no `%`.
    pub(crate) fn is_plain(self) -> bool
        ensures { result ≡ knows_plain self }
    {
        match self {
            ByteClass::Plain => true,
            ByteClass::Ascii => false,
            ByteClass::Escaped => false,
            ByteClass::Other => false,
        }
    }
}

/// Classifies the bytes of a text.
pub(crate) fn byte_class_of(text: &[u8]) -> ByteClass
    ensures { HasByteClass result text.now }
{
    if is_plain(text) {
        return ByteClass::Plain;
    }
    if is_printable(text) {
        return escape_class_of(text);
    }
    ByteClass::Other
}

/// Classifies the escapes of a printable text.
fn escape_class_of(text: &[u8]) -> ByteClass
    requires { is_printable text.now ≡ true }
    ensures { HasByteClass result text.now }
{
    let mut ascii = true;
    let mut rest = text;
    while let Some((_, suffix)) = cut(rest, b'%') {
        let Some((low, left)) = past_run(suffix) else {
            return ByteClass::Other;
        };
        ascii &= low;
        rest = left;
    }
    if ascii {
        ByteClass::Ascii
    } else {
        ByteClass::Escaped
    }
}
