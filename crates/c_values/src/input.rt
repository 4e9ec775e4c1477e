//! The location that C passes: numbers, and the bytes of each part.

ghost use Rattle.std.specs.Prelude.{◌≡◌, IfSome, None, option_map};
ghost use Rattle.gix_url.specs.Views.{borrowed_scheme};
ghost use Rattle.c_values.specs.Input.{IsNoScheme, IsNoText, IsNone, location_of, present, scheme_numbered};

use gix_url::{SchemeRef, UrlRef};

/// The numbers of a location. The bytes of a missing part are ignored.
#[repr(C)]
#[derive(Clone, Copy)]
pub struct LocationNumbers {
    /// The scheme: 0 `file`, 1 `git`, 2 `ssh`, 3 `http`, 4 `https`, 5 `ext`, 6 a remote helper by its name, 7
    /// another URL by its scheme.
    pub scheme: u8,
    /// Whether the location is written in its form that is not a URL, if it has one.
    pub alternative: bool,
    /// Whether there is a user.
    pub has_user: bool,
    /// Whether there is a password.
    pub has_password: bool,
    /// Whether there is a host.
    pub has_host: bool,
    /// Whether there is a port.
    pub has_port: bool,
    /// Whether the escaped spelling of the path was retained.
    pub has_spelling: bool,
    /// The port, if there is one.
    pub port: u16,
}

/// A location in C's form: numbers, and the bytes of each part. Exports over a location take it, and
/// `gix_url_c_read_in` reports it, where a missing part is empty.
#[repr(C)]
#[derive(Clone, Copy)]
pub struct PartBytes<'a> {
    /// The numbers.
    pub numbers: LocationNumbers,
    /// The name of a remote helper or of another scheme.
    pub name: &'a [u8],
    /// The user, decoded.
    pub user: &'a [u8],
    /// The password, decoded.
    pub password: &'a [u8],
    /// The host.
    pub host: &'a [u8],
    /// The path, decoded.
    pub path: &'a [u8],
    /// The retained spelling of the path.
    pub spelling: &'a [u8],
}

/// The location with these parts, all of them borrowed. There is none if the scheme's number is not one of the eight,
/// or if the name, the user, the password or the host isn't UTF-8.
#[inline(always)]
pub fn location_of<'a>(passed: &PartBytes<'a>) -> Option<UrlRef<'a>>
    ensures built { IfSome result (λ url. url ≡ location_of passed.now) }
    ensures whole { IfSome result (λ _. ¬ IsNone passed.now) }
    ensures refused { result ≡ None → IsNone passed.now }
{
    Some(UrlRef {
        scheme: scheme(passed.numbers.scheme, passed.name)?,
        user: text(passed.numbers.has_user, passed.user)?,
        password: text(passed.numbers.has_password, passed.password)?,
        host: text(passed.numbers.has_host, passed.host)?,
        serialize_alternative_form: passed.numbers.alternative,
        port: present(passed.numbers.has_port, passed.numbers.port),
        path: reload(passed.path),
        spelling: present(passed.numbers.has_spelling, passed.spelling),
    })
}

/// The scheme with this number, and with this name if it has one.
#[inline(always)]
pub(crate) fn scheme(number: u8, name: &[u8]) -> Option<SchemeRef<'_>>
    ensures built { IfSome result (λ scheme. borrowed_scheme scheme ≡ scheme_numbered number name.now) }
    ensures known { IfSome result (λ _. ¬ IsNoScheme number name.now) }
    ensures refused { result ≡ None → IsNoScheme number name.now }
{
    match number {
        0 => Some(SchemeRef::File),
        1 => Some(SchemeRef::Git),
        2 => Some(SchemeRef::Ssh),
        3 => Some(SchemeRef::Http),
        4 => Some(SchemeRef::Https),
        5 => Some(SchemeRef::Ext),
        6 => Some(SchemeRef::Helper(str::from_utf8(name).ok()?)),
        7 => Some(SchemeRef::HelperUrl(str::from_utf8(name).ok()?)),
        _ => None,
    }
}

/// A text that may be missing; `None` if it is there and isn't UTF-8.
#[inline(always)]
fn text(is_there: bool, bytes: &[u8]) -> Option<Option<&str>>
    ensures built { IfSome result (λ text. option_map (λ t. t.now) text ≡ present is_there bytes.now) }
    ensures known { IfSome result (λ _. ¬ IsNoText is_there bytes.now) }
    ensures refused { result ≡ None → IsNoText is_there bytes.now }
{
    if !is_there {
        return Some(None);
    }
    match str::from_utf8(bytes) {
        Ok(text) => Some(Some(reload(text))),
        Err(_) => None,
    }
}

/// Returns the slice. An argument is copied as two numbers. A field is copied as one wide value, and the processor
/// waits for it until both numbers, which were written just before, are in the cache.
#[inline(always)]
pub(crate) fn reload<T: Copy>(slice: T) -> T
    ensures { result ≡ slice }
{
    slice
}

/// The part, if it is there.
#[inline(always)]
pub fn present<T: Copy>(is_there: bool, part: T) -> Option<T>
    ensures { result ≡ present is_there part }
{
    if is_there { Some(part) } else { None }
}
