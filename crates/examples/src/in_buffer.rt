//! Examples of texts that are parsed into a buffer.

use gix_url::unambiguous::is_unambiguous;
use gix_url::{ParseError, UrlRef};

/// The host that a line names for all readers, in a buffer that is used for line after line.
fn host_in<'a>(line: &'a [u8], buffer: &'a mut [u8]) -> Option<&'a str> {
    match UrlRef::parse_in(line, buffer) {
        Ok(url) if is_unambiguous(&url) => url.host, // `example.com` of `ssh://git@Example.com/repo`
        Ok(_) | Err(_) => None,
    }
}

/// Whether the same text is read if the buffer is as long as the text.
fn wants_longer(error: &ParseError) -> bool {
    matches!(error, ParseError::NoRoom)
}
