//! The location that C gets: numbers, and the bytes of all parts one after the other in the caller's buffer.
//!
//! If the parts don't fit, none is copied, and their lengths are reported.

ghost use Rattle.std.specs.Prelude.{◌≡◌, ◌≤◌, ◌⊎◌, ◌++◌, drop, length, option_map};
ghost use Rattle.std.specs.Option.{option_copied};
ghost use Rattle.gix_url.specs.Views.{borrowed_scheme};
ghost use Rattle.c_values.specs.Codes.{no_room, ok};
ghost use Rattle.c_values.specs.Output.{Returns, bytes_of, location_numbers, part_lengths, or_nothing, scheme_name, scheme_number};
ghost use Rattle.c_values.specs.Left.{LeavesBuffer};

use crate::buffer::write_at;
use crate::codes::{NO_ROOM, OK};
use crate::input::LocationNumbers;
use gix_url::{SchemeRef, UrlRef};

/// A location: its numbers, and the lengths of its parts in bytes. The caller's buffer has the parts in this
/// order. `gix_url_c_read` and `gix_url_c_from_parts` report it.
#[repr(C)]
#[derive(Clone, Copy)]
pub struct PartLengths {
    /// The numbers.
    pub numbers: LocationNumbers,
    /// The length of the name of a remote helper or of another scheme.
    pub name: usize,
    /// The length of the user.
    pub user: usize,
    /// The length of the password.
    pub password: usize,
    /// The length of the host.
    pub host: usize,
    /// The length of the path.
    pub path: usize,
    /// The length of the retained spelling of the path.
    pub spelling: usize,
}

/// Reports the location, and copies its parts to the buffer if they fit.
pub(crate) fn write_location(url: &UrlRef<'_>, built: &mut PartLengths, buffer: &mut [u8]) -> u32
    ensures reported { Returns url.now built.new buffer.old buffer.new result }
    ensures buffer { LeavesBuffer result buffer.old buffer.new }
    ensures code { (result ≡ ok) ⊎ (result ≡ no_room) }
{
    *built = part_lengths(url);
    if (buffer.len() as u128) < size(url) {
        return NO_ROOM;
    }
    write_parts(url, buffer);
    OK
}

/// The length of all parts.
fn size(url: &UrlRef<'_>) -> u128
    ensures { result ≡ length (bytes_of url.now) }
{
    name(url.scheme).len() as u128
        + text(url.user).len() as u128
        + text(url.password).len() as u128
        + text(url.host).len() as u128
        + url.path.len() as u128
        + part(url.spelling).len() as u128
}

/// Copies all parts, one after the other, to the front of the buffer, which is long enough.
fn write_parts(url: &UrlRef<'_>, buffer: &mut [u8])
    requires { length (bytes_of url.now) ≤ length buffer.old }
    ensures { buffer.new ≡ bytes_of url.now ++ drop (length (bytes_of url.now)) buffer.old }
{
    let at = write_at(buffer, 0, name(url.scheme));
    let at = write_at(buffer, at, text(url.user));
    let at = write_at(buffer, at, text(url.password));
    let at = write_at(buffer, at, text(url.host));
    let at = write_at(buffer, at, url.path);
    let _ = write_at(buffer, at, part(url.spelling));
}

/// The numbers, and the lengths of the parts.
fn part_lengths(url: &UrlRef<'_>) -> PartLengths
    ensures { result ≡ part_lengths url.now }
{
    PartLengths {
        numbers: numbers(url),
        name: name(url.scheme).len(),
        user: text(url.user).len(),
        password: text(url.password).len(),
        host: text(url.host).len(),
        path: url.path.len(),
        spelling: part(url.spelling).len(),
    }
}

/// The numbers.
pub(crate) fn numbers(url: &UrlRef<'_>) -> LocationNumbers
    ensures { result ≡ location_numbers url.now }
{
    LocationNumbers {
        scheme: number(url.scheme),
        alternative: url.serialize_alternative_form,
        has_user: url.user.is_some(),
        has_password: url.password.is_some(),
        has_host: url.host.is_some(),
        has_port: url.port.is_some(),
        has_spelling: url.spelling.is_some(),
        port: url.port.unwrap_or(0),
    }
}

/// The number of a scheme.
fn number(scheme: SchemeRef<'_>) -> u8
    ensures { result ≡ scheme_number (borrowed_scheme scheme.entry) }
{
    match scheme {
        SchemeRef::File => 0,
        SchemeRef::Git => 1,
        SchemeRef::Ssh => 2,
        SchemeRef::Http => 3,
        SchemeRef::Https => 4,
        SchemeRef::Ext => 5,
        SchemeRef::Helper(_) => 6,
        SchemeRef::HelperUrl(_) => 7,
    }
}

/// The name that a scheme has, or an empty one.
pub(crate) fn name(scheme: SchemeRef<'_>) -> &[u8]
    ensures { result.now ≡ scheme_name (borrowed_scheme scheme.entry) }
{
    match scheme {
        SchemeRef::Helper(name) | SchemeRef::HelperUrl(name) => name.as_bytes(),
        SchemeRef::File | SchemeRef::Git | SchemeRef::Ssh => b"",
        SchemeRef::Http | SchemeRef::Https | SchemeRef::Ext => b"",
    }
}

/// The bytes of a text, or an empty slice.
pub(crate) fn text(text: Option<&str>) -> &[u8]
    ensures { result.now ≡ or_nothing (option_map (λ t. t.now) text.entry) }
{
    match text {
        None => b"",
        Some(text) => text.as_bytes(),
    }
}

/// The bytes, or an empty slice.
pub(crate) fn part(bytes: Option<&[u8]>) -> &[u8]
    ensures { result.now ≡ or_nothing (option_copied bytes.entry) }
{
    match bytes {
        None => b"",
        Some(bytes) => bytes,
    }
}
