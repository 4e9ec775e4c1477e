//! The class of locations in whose texts Git reads the same place.
//!
//! In the text of each location of the class, Git reads the location's own scheme, user, host, port and path
//! (`law_git`); of `git://` the host without brackets. Over HTTP its credential code reads the path without the
//! slashes around it. The module `web` decides the class of HTTP.

ghost use Rattle.std.specs.Prelude.{◌≡◌, ◌↔◌, IsTrue, IfSome, None, Some, false, option_map};
ghost use Rattle.std.specs.List.{list_any};
ghost use Rattle.percent_encoding.specs.AsciiSet.{should_percent_encode};
ghost use Rattle.git_syntax.specs.Bytes.{FreeOf, begins_with, is_option_like, percent_sign, tilde};
ghost use Rattle.git_class.specs.GitClass.{AgreesByTransport, AgreesWithGit, HasNoOption, HasPlainParts, IsBracketedOfGit, IsHostOfGit, IsPlainPart, IsRsync, SuitsTransport, is_contested, is_tilde_second};

use crate::web::agrees_over_web;
use git_location::settled::fields::has_empty_user;
use git_location::url_ref::UrlRef;
use git_syntax::bytes::{is_free_of, starts_with_byte};
use git_syntax::escape::{PASSWORD, USER};
use git_syntax::scheme::SchemeRef;
use memchr::memchr3;
use percent_encoding::AsciiSet;

/// Whether the location is of the class in whose texts Git reads this very place (`law_git`), like
/// [`Url::agrees_with_git`]. If the result is `false`, Git may read the same place or another one.
///
/// ```
/// /// Writes the text for Git, if Git reads the same place in it.
/// fn write_for_git(out: &mut Vec<u8>, url: &UrlRef<'_>) -> Result<bool, WriteError> {
///     if !agrees_with_git(url) {
///         return Ok(false); // `ssh://u:p@h/p`, in which Git reads the user `u:p`
///     }
///     url.write_to(out)?;
///     Ok(true)
/// }
/// ```
pub fn agrees_with_git(url: &UrlRef<'_>) -> bool
    ensures { IsTrue result ↔ AgreesWithGit url.now }
{
    match url.scheme {
        SchemeRef::Http | SchemeRef::Https => agrees_over_web(url),
        SchemeRef::File
        | SchemeRef::Git
        | SchemeRef::Ssh
        | SchemeRef::Ext
        | SchemeRef::Helper(_)
        | SchemeRef::HelperUrl(_) => agrees_by_transport(url),
    }
}

/// Whether the location has one of Git's own transports, and is of their class.
fn agrees_by_transport(url: &UrlRef<'_>) -> bool
    ensures { IsTrue result ↔ AgreesByTransport url.now }
{
    // The scheme comes first: some schemes decide the result.
    suits_transport(url)
        && url.password.is_none()
        && has_no_option(url)
        && url.is_settled()
        && has_plain_parts(url)
}

/// Whether neither user nor host nor path begins with `-`.
fn has_no_option(url: &UrlRef<'_>) -> bool
    ensures { IsTrue result ↔ HasNoOption url.now }
{
    is_no_option(url.user) && is_no_option(url.host) && !starts_with_byte(url.path, b'-')
}

/// Whether the text is missing or doesn't begin with `-`.
fn is_no_option(part: Option<&str>) -> bool
    ensures { IsTrue result
        ↔ IfSome (option_map (λ t. t.now) part.entry) (λ t. is_option_like t ≡ false) }
{
    match part {
        None => true,
        Some(text) => !starts_with_byte(text.as_bytes(), b'-'),
    }
}

/// Whether the location meets the conditions of Git's transport for its scheme, if Git has one.
fn suits_transport(url: &UrlRef<'_>) -> bool
    ensures { IsTrue result ↔ SuitsTransport url.now.scheme url.now }
{
    match url.scheme {
        SchemeRef::Ssh => !is_tilde_second(url.path) && !is_rsync(url) && !has_empty_user(url),
        SchemeRef::Git => url.user.is_none() && is_free_of(url.path, b'\n'),
        SchemeRef::File => url.host.is_none() && is_plain_file(url),
        SchemeRef::Http
        | SchemeRef::Https
        | SchemeRef::Ext
        | SchemeRef::Helper(_)
        | SchemeRef::HelperUrl(_) => false,
    }
}

/// Whether the path doesn't begin with `~`, and in a URL has no `%`.
fn is_plain_file(url: &UrlRef<'_>) -> bool
    ensures { IsTrue result ↔ (begins_with tilde url.now.path ≡ false)
        × (url.now.flag ≡ false → FreeOf percent_sign url.now.path) }
{
    !starts_with_byte(url.path, b'~')
        && (url.serialize_alternative_form || is_free_of(url.path, b'%'))
}

/// Whether the second byte is `~`.
fn is_tilde_second(text: &[u8]) -> bool
    ensures { result ≡ is_tilde_second text.now }
{
    match text {
        [_, second, ..] => *second == b'~',
        _ => false,
    }
}

/// Whether the location has the scp form, no user and the host `rsync`. With Secure Shell its text begins with
/// `rsync:`.
fn is_rsync(url: &UrlRef<'_>) -> bool
    ensures { IsTrue result ↔ IsRsync url.now }
{
    url.serialize_alternative_form && url.user.is_none() && has_host(url, b"rsync")
}

/// Whether the location has this host.
fn has_host(url: &UrlRef<'_>, name: &[u8]) -> bool
    ensures { IsTrue result ↔ (url.now.host ≡ Some name.now) }
{
    match url.host {
        None => false,
        Some(host) => host.as_bytes() == name,
    }
}

/// Whether Git cuts exactly the user, the host and the path out of the text.
fn has_plain_parts(url: &UrlRef<'_>) -> bool
    ensures { IsTrue result ↔ HasPlainParts url.now }
{
    is_plain_part(url.user, url.serialize_alternative_form, USER)
        && has_plain_host(url)
        && !holds_contested(url.path)
}

/// Whether the user or host is missing, or is unescaped in the text and has no byte at which Git cuts it.
fn is_plain_part(part: Option<&str>, is_no_url: bool, escaped: AsciiSet) -> bool
    ensures { IsTrue result
        ↔ IfSome (option_map (λ t. t.now) part.entry) (IsPlainPart is_no_url escaped) }
{
    match part {
        None => true,
        Some(text) => {
            if is_no_url {
                !holds_contested(text.as_bytes())
            } else {
                !holds_escaped(text.as_bytes(), escaped)
            }
        }
    }
}

/// Whether the host is missing, is such a text, or has brackets of its own, as only hosts of `git://` have.
fn has_plain_host(url: &UrlRef<'_>) -> bool
    ensures { IsTrue result ↔ IfSome url.now.host (IsHostOfGit url.now) }
{
    match url.host {
        None => true,
        Some(host) => {
            is_plain_part(Some(host), url.serialize_alternative_form, PASSWORD)
                || is_bracketed_of_git(url, host)
        }
    }
}

/// Whether the location has the scheme `git` and this host begins with a bracket.
fn is_bracketed_of_git(url: &UrlRef<'_>, host: &str) -> bool
    ensures { IsTrue result ↔ IsBracketedOfGit url.now host.now }
{
    matches!(url.scheme, SchemeRef::Git) && starts_with_byte(host.as_bytes(), b'[')
}

/// Whether the text has a byte at which Git cuts it differently.
fn holds_contested(text: &[u8]) -> bool
    ensures { result ≡ list_any is_contested text.now }
{
    memchr3(0, b'[', b']', text).is_some()
}

/// Whether a byte of the text is written as an escape.
fn holds_escaped(text: &[u8], escaped: AsciiSet) -> bool
    ensures { result ≡ list_any (should_percent_encode escaped) text.now }
{
    text.iter().any(|byte| escaped.should_percent_encode(*byte))
}
