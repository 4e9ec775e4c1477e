//! Reads a location into a caller's buffer.

ghost use Rattle.std.specs.Prelude.{◌≡◌, length};
ghost use Rattle.git_location.specs.Readings.{ReadsIn};
ghost use Rattle.git_syntax.specs.Internal.SimplePieces.{simple_location};

use crate::parse_error::ParseError;
use crate::to_url_ref::to_url_ref;
use crate::url_ref::UrlRef;
use git_refusals::read::refusal;
use git_syntax::find::find;
use git_syntax::simple::{SimplePieces, simple_pieces};

impl<'a> UrlRef<'a> {
    /// Reads the one location that the bytes spell, like [`parse`], without an allocation. The fields of the
    /// result are slices of the text or of `buffer`; no clause says which. The code copies a field to the
    /// buffer only if an escape in it is decoded, and a host also if it has a capital letter, brackets, or a
    /// colon without a port.
    ///
    /// A buffer as long as the text always suffices. With a shorter one every text that spells a location gives
    /// `NoRoom`. Any other text is refused whatever the length of the buffer. The contents of the buffer after
    /// the call are unspecified; that it is unchanged after an error is tested, not proved.
    ///
    /// # Errors
    ///
    /// - [`ParseError::Refused`] if the bytes spell no location, with the first flaw in the order of checks.
    /// - [`ParseError::NoRoom`] if they spell one and the buffer is shorter than they are.
    ///
    /// ```
    /// /// The host that a line names for all readers, in a buffer that is used for line after line.
    /// fn host_in<'a>(line: &'a [u8], buffer: &'a mut [u8]) -> Option<&'a str> {
    ///     match UrlRef::parse_in(line, buffer) {
    ///         Ok(url) if is_unambiguous(&url) => url.host, // `example.com` of `ssh://git@Example.com/repo`
    ///         Ok(_) | Err(_) => None,
    ///     }
    /// }
    /// ```
    pub fn parse_in(text: &'a [u8], buffer: &'a mut [u8]) -> Result<UrlRef<'a>, ParseError>
        ensures { ReadsIn text.now (length buffer.old) result }
    {
        if let Some(pieces) = simple_pieces::<false>(text) {
            if buffer.len() < text.len() {
                return Err(ParseError::NoRoom);
            }
            return Ok(simple_url_ref(pieces));
        }
        read_any_in(text, buffer)
    }
}

/// Reads the one location that the bytes spell, like [`UrlRef::parse_in`], by the general search alone, which is slower
/// for simple texts.
#[inline(never)]
pub fn read_any_in<'a>(text: &'a [u8], buffer: &'a mut [u8]) -> Result<UrlRef<'a>, ParseError>
    ensures { ReadsIn text.now (length buffer.old) result }
{
    match find::<0>(text) {
        Err(_) => Err(ParseError::Refused(refusal(text))),
        Ok(found) => {
            if buffer.len() < text.len() {
                return Err(ParseError::NoRoom);
            }
            Ok(to_url_ref(found, buffer))
        }
    }
}

/// The location that the pieces of a simple text denote.
#[inline(always)]
fn simple_url_ref(pieces: SimplePieces<'_>) -> UrlRef<'_>
    ensures { result ≡ simple_location pieces.entry }
{
    UrlRef {
        scheme: pieces.scheme,
        user: pieces.user,
        password: None,
        host: pieces.host,
        serialize_alternative_form: pieces.flag,
        port: pieces.port,
        path: pieces.path,
        spelling: None,
    }
}
