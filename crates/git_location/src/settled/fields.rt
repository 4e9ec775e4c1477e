//! Tests of single fields of a location.

ghost use Rattle.std.specs.Prelude.{◌≡◌, ◌↔◌, [], IsTrue, Some, codes};
ghost use Rattle.git_syntax.specs.Bytes.{Holds};
ghost use Rattle.git_syntax.specs.Hosts.{normal_host};
ghost use Rattle.git_location.specs.Settled.{HasAtMostHost, HasMatch, IsFlaggedPath, IsNormalAddress, IsNormalName, IsOpenName, begins_with_slashes};

use crate::url_ref::UrlRef;
use git_syntax::bytes::{cut_at_mark, is_free_of, is_lowercase};
use git_syntax::escape::decodes_to;
use git_syntax::host::bytes::is_like_domain;
use git_syntax::host::is_simple_host;
use git_syntax::ipv6::is_address;

/// Whether the location has neither user nor password nor port.
pub(crate) fn has_at_most_host(url: &UrlRef<'_>) -> bool
    ensures { IsTrue result ↔ HasAtMostHost url.now }
{
    url.user.is_none() && url.password.is_none() && url.port.is_none()
}

/// Whether the location has the flag and a path only.
pub(crate) fn is_flagged_path(url: &UrlRef<'_>) -> bool
    ensures { IsTrue result ↔ IsFlaggedPath url.now }
{
    url.serialize_alternative_form && has_at_most_host(url) && url.host.is_none()
}

/// Whether the retained spelling of the path decodes to the path.
pub(crate) fn has_match(url: &UrlRef<'_>) -> bool
    ensures { IsTrue result ↔ HasMatch url.now }
{
    match url.spelling {
        None => false,
        Some(spelling) => decodes_to(spelling, url.path),
    }
}

/// Whether the location has a user, and it is empty.
pub fn has_empty_user(url: &UrlRef<'_>) -> bool
    ensures { IsTrue result ↔ (url.now.user ≡ Some []) }
{
    match url.user {
        None => false,
        Some(user) => user.is_empty(),
    }
}

/// Whether the text begins with `//`.
pub fn begins_with_slashes(text: &[u8]) -> bool
    ensures { result ≡ begins_with_slashes text.now }
{
    match text {
        [first, second, ..] => *first == b'/' && *second == b'/',
        _ => false,
    }
}

/// Whether the text lacks `://`. Few texts have a colon.
pub(crate) fn lacks_mark(text: &[u8]) -> bool
    ensures { IsTrue result ↔ ¬ Holds (codes "://") text.now }
{
    is_free_of(text, b':') || cut_at_mark(text).is_none()
}

/// Whether the host is its own normal form.
pub(crate) fn is_normal(host: &[u8]) -> bool
    ensures { IsTrue result ↔ (normal_host host.now ≡ host.now) }
{
    !is_like_domain(host) || is_lowercase(host)
}

/// Whether the text is not empty and lacks `:`, `[` and `]`.
fn is_open_name(host: &[u8]) -> bool
    ensures { IsTrue result ↔ IsOpenName host.now }
{
    !host.is_empty() && is_free_of(host, b':') && is_free_of(host, b'[') && is_free_of(host, b']')
}

/// Whether the text is a settled name of a host. Most are simple hosts, which one pass finds.
pub(crate) fn is_normal_name(host: &[u8]) -> bool
    ensures { IsTrue result ↔ IsNormalName host.now }
{
    is_simple_host(host) || (is_open_name(host) && is_normal(host))
}

/// Whether the text is an IPv6 text in lower case.
pub(crate) fn is_normal_address(host: &[u8]) -> bool
    ensures { IsTrue result ↔ IsNormalAddress host.now }
{
    is_address(host) && is_lowercase(host)
}
