//! Whether two locations name the same host, so that a program can check a rewritten location.

ghost use Rattle.std.specs.Prelude.{◌≡◌, ◌↔◌, IsTrue, length};
ghost use Rattle.git_rules.specs.SameHost.{ComparesHosts, HaveSameHost, host_name};

use git_location::parse_error::ParseError;
use git_location::url_ref::UrlRef;
use git_syntax::ssh_host::ssh_host_text;

/// Whether two locations name the same host. A program can warn about a remote that a rule moves to another host.
///
/// Hosts are compared ignoring letter case (ASCII), brackets around them, and a lone colon after them. Two
/// locations without a host compare equal. Scheme, user and port are ignored: the locations may use different
/// protocols, or different services of the host. Names are not resolved. The hosts are the fields of the
/// locations: that Git connects to them is known if the locations are unambiguous.
///
/// ```
/// /// Whether a rule may move a location to a host that the user hasn't named.
/// fn may_be_moved(before: &UrlRef<'_>, after: &UrlRef<'_>) -> bool {
///     !(is_unambiguous(before) && is_unambiguous(after) && names_same_host(before, after))
/// }
/// ```
pub fn names_same_host(a: &UrlRef<'_>, b: &UrlRef<'_>) -> bool
    ensures { IsTrue result ↔ HaveSameHost a.now b.now }
{
    match a.host {
        None => b.host.is_none(),
        Some(host) => match b.host {
            None => false,
            Some(other) => is_same_host(host.as_bytes(), other.as_bytes()),
        },
    }
}

/// Whether two texts name the same host, like [`names_same_host`]. Each text is parsed into its own buffer. A
/// buffer as long as its text suffices.
///
/// ```
/// /// Whether both texts name the same host for all readers; none where one of them isn't read, or not by all
/// /// readers alike, or is longer than 1,024 bytes.
/// fn keeps_host(before: &[u8], after: &[u8]) -> Option<bool> {
///     let mut buffer = [0u8; 1024];
///     let mut other = [0u8; 1024];
///     if !is_unambiguous(&UrlRef::parse_in(before, &mut buffer).ok()?)
///         || !is_unambiguous(&UrlRef::parse_in(after, &mut other).ok()?)
///     {
///         return None;
///     }
///     texts_name_same_host(before, &mut buffer, after, &mut other).ok()
/// }
/// ```
///
/// # Errors
///
/// The [`ParseError`] of the first text that can't be parsed.
pub fn texts_name_same_host(
    a: &[u8],
    buffer: &mut [u8],
    b: &[u8],
    other: &mut [u8],
) -> Result<bool, ParseError>
    ensures { ComparesHosts a.now (length buffer.old) b.now (length other.old) result }
{
    let first = UrlRef::parse_in(a, buffer)?;
    let second = UrlRef::parse_in(b, other)?;
    Ok(names_same_host(&first, &second))
}

/// Whether two hosts have the same name: they are equal, ignoring letter case (ASCII), brackets around them, and a
/// lone colon at their end.
///
/// ```
/// /// Whether all readers connect to one of the known hosts.
/// fn is_known(url: &UrlRef<'_>, known: &[&str]) -> bool {
///     let host = url.host.unwrap_or("").as_bytes();
///     is_unambiguous(url) && known.iter().any(|name| is_same_host(host, name.as_bytes()))
/// }
/// ```
pub fn is_same_host(a: &[u8], b: &[u8]) -> bool
    ensures { IsTrue result ↔ (host_name a.now ≡ host_name b.now) }
{
    ssh_host_text(a).eq_ignore_ascii_case(ssh_host_text(b))
}
