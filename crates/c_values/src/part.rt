//! A location that has one part alone, the default port of a scheme, and truth as a number.

ghost use Rattle.std.specs.Prelude.{◌≡◌, None, [], option_map};
ghost use Rattle.gix_url.specs.Schemes.{default_port_of};
ghost use Rattle.c_values.specs.Input.{scheme_numbered};
ghost use Rattle.c_values.specs.SeenLocations.{truth};

use crate::input::scheme;
use gix_url::{SchemeRef, UrlRef};

/// The default port of the scheme with this number. A scheme that has a name has none.
pub fn default_port(number: u8) -> Option<u16>
    ensures { result ≡ default_port_of (scheme_numbered number []) }
{
    scheme(number, b"")?.default_port()
}

/// A location with this path and spelling, and no other part.
#[inline(always)]
pub fn with_path<'a>(path: &'a [u8], spelling: Option<&'a [u8]>) -> UrlRef<'a>
    ensures path { result.path ≡ path.now }
    ensures spelling { result.spelling ≡ option_map (λ s. s.now) spelling.entry }
{
    UrlRef {
        scheme: SchemeRef::File,
        user: None,
        password: None,
        host: None,
        serialize_alternative_form: false,
        port: None,
        path,
        spelling,
    }
}

/// 1 for true, 0 for false.
pub fn truth(holds: bool) -> u32
    ensures { result ≡ truth holds }
{
    if holds { 1 } else { 0 }
}
