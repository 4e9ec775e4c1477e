//! File names as URIs.
//!
//! In the URI of a name, each byte is escaped that is neither unreserved nor `/`. `file://` precedes an absolute name.

ghost use Rattle.std.specs.Prelude.{◌≡◌, IfOk, string_bytes};
ghost use Rattle.explain_audit.specs.Uris as spec;

use percent_encoding::{AsciiSet, NON_ALPHANUMERIC, ascii_set, percent_encode};
use std::alloc::{AllocError, Global};

/// The bytes that are escaped: all except `/` and those that RFC 3986 calls unreserved.
pub const ESCAPED: AsciiSet = ascii_set!(
    NON_ALPHANUMERIC
        .remove(b'-')
        .remove(b'.')
        .remove(b'_')
        .remove(b'~')
        .remove(b'/')
);

/// Returns the URI of a file. The name `-` is standard input.
pub fn uri_of(alloc: Global, file: &str) -> Result<String, AllocError>
    ensures { IfOk result (λ uri. string_bytes uri ≡ spec.uri_of file.now) }
{
    if is_input(file) {
        return String::from_str(alloc, "file:///dev/stdin");
    }
    let mut uri = String::from_str(alloc, front(file))?;
    percent_encode(file.as_bytes(), ESCAPED).append_to(&mut uri)?;
    Ok(uri)
}

/// Whether the name is that of standard input.
fn is_input(file: &str) -> bool
    ensures { result ≡ spec.is_input file.now }
{
    file.as_bytes() == b"-".as_slice()
}

/// The front of the URI of a file, before the name.
fn front(file: &str) -> &'static str
    ensures { result.now ≡ spec.front file.now }
{
    match file.as_bytes() {
        [b'/', ..] => "file://",
        _ => "",
    }
}
