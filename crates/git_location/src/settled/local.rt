//! The settled remote helpers, local paths and file URLs.

ghost use Rattle.std.specs.Prelude.{◌↔◌, IsTrue, IfSome};
ghost use Rattle.git_syntax.specs.Grammar.{LocalForm};
ghost use Rattle.git_location.specs.Settled.{IsFileHost, IsSettledFile, IsSettledHelper, IsSettledLocal};

use crate::settled::fields::{has_at_most_host, has_match, is_flagged_path};
use crate::url_ref::UrlRef;
use git_syntax::bytes::{is_free_of, is_helper_name, starts_with_byte};
use git_syntax::classify::{Form, classify};
use git_syntax::escape::has_percent;
use git_syntax::text::is_text;

/// Whether the location is a settled remote helper of this name.
pub(crate) fn is_settled_helper(url: &UrlRef<'_>, name: &[u8]) -> bool
    ensures { IsTrue result ↔ IsSettledHelper name.now url.now }
{
    is_flagged_path(url) && is_helper_name(name)
}

/// Whether the location is a settled local path.
pub(crate) fn is_settled_local(url: &UrlRef<'_>) -> bool
    ensures { IsTrue result ↔ IsSettledLocal url.now }
{
    is_flagged_path(url) && is_local(url.path)
}

/// Whether the text has the form of a local path.
fn is_local(text: &[u8]) -> bool
    ensures { IsTrue result ↔ LocalForm text.now }
{
    matches!(classify(text), Form::Local)
}

/// Whether the location is a settled file URL.
pub(crate) fn is_settled_file(url: &UrlRef<'_>) -> bool
    ensures { IsTrue result ↔ IsSettledFile url.now }
{
    !url.serialize_alternative_form
        && has_at_most_host(url)
        && !has_match(url)
        && has_file_host(url)
        && is_text(url.path)
        && starts_with_byte(url.path, b'/')
}

/// Whether the host is missing or is one of a file URL that is read unchanged.
fn has_file_host(url: &UrlRef<'_>) -> bool
    ensures { IsTrue result ↔ IfSome url.now.host IsFileHost }
{
    match url.host {
        None => true,
        Some(host) => is_file_host(host.as_bytes()),
    }
}

/// Whether the text is a host of a file URL that is read unchanged.
fn is_file_host(host: &[u8]) -> bool
    ensures { IsTrue result ↔ IsFileHost host.now }
{
    !host.is_empty()
        && is_free_of(host, b'/')
        && (starts_with_byte(host, b'[') || is_free_of(host, b':') || !has_percent(host))
}
