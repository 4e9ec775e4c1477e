//! The settled locations in the scp form.

ghost use Rattle.std.specs.Prelude.{◌↔◌, IsTrue, IfSome};
ghost use Rattle.git_location.specs.Settled.{HasScpHost, IsScpHost, IsScpName, IsScpPath, IsScpUser, IsSettledScp, LooksLikeHelper};

use crate::settled::fields::{begins_with_slashes, is_normal_address, is_normal_name, lacks_mark};
use crate::url_ref::UrlRef;
use git_syntax::bytes::{is_free_of, is_helper_name, starts_with_byte};
use git_syntax::escape::lacks_white_space;
use git_syntax::home::begins_at_home;
use git_syntax::host::is_simple_host;
use git_syntax::text::is_text;

/// Whether the location is settled in the scp form.
pub(crate) fn is_settled_scp(url: &UrlRef<'_>) -> bool
    ensures { IsTrue result ↔ IsSettledScp url.now }
{
    url.serialize_alternative_form
        && url.password.is_none()
        && url.port.is_none()
        && is_scp_path(url.path)
        && has_scp_user(url)
        && has_scp_host(url)
}

/// Whether the text is a settled path in the scp form.
fn is_scp_path(path: &[u8]) -> bool
    ensures { IsTrue result ↔ IsScpPath path.now }
{
    is_text(path)
        && !path.is_empty()
        && !begins_at_home(path)
        && !begins_with_slashes(path)
        && lacks_mark(path)
}

/// Whether the user is missing or settled in the scp form.
fn has_scp_user(url: &UrlRef<'_>) -> bool
    ensures { IsTrue result ↔ IfSome url.now.user IsScpUser }
{
    match url.user {
        None => true,
        Some(user) => is_scp_user(user.as_bytes()),
    }
}

/// Whether the text is a settled user in the scp form.
fn is_scp_user(user: &[u8]) -> bool
    ensures { IsTrue result ↔ IsScpUser user.now }
{
    is_free_of(user, b':') && is_free_of(user, b'/') && !starts_with_byte(user, b'[')
}

/// Whether there is a host that is settled in the scp form.
fn has_scp_host(url: &UrlRef<'_>) -> bool
    ensures { IsTrue result ↔ HasScpHost url.now }
{
    match url.host {
        None => false,
        Some(host) => is_scp_host(host) && !is_like_helper(url, host.as_bytes()),
    }
}

/// Whether the text is a settled host in the scp form.
fn is_scp_host(host: &str) -> bool
    ensures { IsTrue result ↔ IsScpHost host.now }
{
    is_scp_name(host) || is_normal_address(host.as_bytes())
}

/// Whether the text is a settled name of a host in the scp form. Most are simple hosts, which one pass finds.
fn is_scp_name(host: &str) -> bool
    ensures { IsTrue result ↔ IsScpName host.now }
{
    is_simple_host(host.as_bytes()) || is_any_scp_name(host)
}

/// Whether the text is a settled name of a host in the scp form, by testing for each byte that such a name
/// lacks.
fn is_any_scp_name(host: &str) -> bool
    ensures { IsTrue result ↔ IsScpName host.now }
{
    let bytes = host.as_bytes();
    is_normal_name(bytes)
        && is_free_of(bytes, b'@')
        && is_free_of(bytes, b'/')
        && is_free_of(bytes, b'\\')
        && lacks_white_space(host)
}

/// Whether the text of this host and the path would be that of a remote helper.
fn is_like_helper(url: &UrlRef<'_>, host: &[u8]) -> bool
    ensures { IsTrue result ↔ LooksLikeHelper url.now host.now }
{
    url.user.is_none() && is_helper_name(host) && starts_with_byte(url.path, b':')
}
