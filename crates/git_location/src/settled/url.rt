//! The settled URLs, except for file URLs.

ghost use Rattle.std.specs.Prelude.{◌≡◌, ◌↔◌, IsTrue, IsUtf8, true, IfSome};
ghost use Rattle.git_syntax.specs.Location.Scheme.{git, helper_url, ssh};
ghost use Rattle.git_syntax.specs.Bytes.{begins_by, is_path_start};
ghost use Rattle.git_syntax.specs.Escapes.{DecodesTo, has_percent, is_sound};
ghost use Rattle.git_location.specs.Internal.Pieces.{AreOwn};
ghost use Rattle.git_location.specs.Settled.{HasBareHost, HasBracketedHost, HasCredentials, HasFairSpelling, HasUrlPath, HasWebHost, IsBracketedHost, IsFairSpelling, IsHomeless, IsHosted, IsRaw, IsRawPath, IsRootedOrEmpty, IsSettledGit, IsSettledHelperUrl, IsSettledRaw, IsSettledSecure, IsSettledUrl, IsSettledWeb, IsTransportPath, IsWeb, first_byte};
ghost use Rattle.git_location.specs.Internal.SettledPieces.{HasRawPath, IsSettledBesidePath, IsWrittenAsUrl};

use crate::settled::fields::{has_empty_user, has_match};
use crate::settled::host::{is_bare_host, is_bracketed_host, is_web_host};
use crate::settled::length_check::has_fitting_text;
use crate::url_ref::UrlRef;
use crate::writer::piece::{Pieces, count_percents};
use git_syntax::bytes::{is_scheme_text, starts_with_byte};
use git_syntax::escape::{decodes_to, has_percent, lacks_white_space};
use git_syntax::home::begins_at_home;
use git_syntax::scheme::{is_ftp, is_known_scheme};
use git_syntax::text::{as_text, is_plain, is_text};

/// Whether the location is a settled URL of HTTP.
pub(crate) fn is_settled_web(url: &UrlRef<'_>, laid: Option<&Pieces<'_>>) -> bool
    requires { IsWeb url.now }
    ensures { AreOwn laid.entry url.now → (IsTrue result ↔ IsSettledWeb url.now) }
{
    has_web_host(url)
        && url.port != Some(0)
        && begins_web_path(url.path)
        && is_settled_url(url, laid)
}

/// Whether there is a host that is settled for HTTP.
fn has_web_host(url: &UrlRef<'_>) -> bool
    ensures { IsTrue result ↔ HasWebHost url.now }
{
    match url.host {
        None => false,
        Some(host) => is_web_host(host.as_bytes(), url.port),
    }
}

/// Whether the text begins as a path of HTTP may.
fn begins_web_path(path: &[u8]) -> bool
    ensures { result ≡ begins_by (is_path_start true) path.now }
{
    match path {
        [] => false,
        [first, ..] => *first == b'/' || *first == b'?' || *first == b'#',
    }
}

/// Whether the location is a settled URL of Secure Shell.
pub(crate) fn is_settled_secure(url: &UrlRef<'_>, laid: Option<&Pieces<'_>>) -> bool
    requires { url.now.scheme ≡ ssh }
    ensures { AreOwn laid.entry url.now → (IsTrue result ↔ IsSettledSecure url.now) }
{
    has_bare_host(url) && is_transport_path(url) && is_settled_raw(url, laid)
}

/// Whether there is a host that is settled for Secure Shell.
fn has_bare_host(url: &UrlRef<'_>) -> bool
    ensures { IsTrue result ↔ HasBareHost url.now }
{
    match url.host {
        None => false,
        Some(host) => is_bare_host(host.as_bytes()),
    }
}

/// Whether the location is a settled URL of Git's own protocol.
pub(crate) fn is_settled_git(url: &UrlRef<'_>, laid: Option<&Pieces<'_>>) -> bool
    requires { url.now.scheme ≡ git }
    ensures { AreOwn laid.entry url.now → (IsTrue result ↔ IsSettledGit url.now) }
{
    has_bracketed_host(url) && is_transport_path(url) && is_settled_raw(url, laid)
}

/// Whether there is a settled host whose addresses are in brackets.
fn has_bracketed_host(url: &UrlRef<'_>) -> bool
    ensures { IsTrue result ↔ HasBracketedHost url.now }
{
    match url.host {
        None => false,
        Some(host) => is_bracketed_host(host.as_bytes()),
    }
}

/// Whether the path is rooted, or is below a home folder and has no spelling that matches it.
fn is_transport_path(url: &UrlRef<'_>) -> bool
    ensures { IsTrue result ↔ IsTransportPath url.now }
{
    is_homeless(url.path) || (starts_with_byte(url.path, b'~') && !has_match(url))
}

/// Whether the text begins with `/`, but not with `/~`.
fn is_homeless(path: &[u8]) -> bool
    ensures { IsTrue result ↔ IsHomeless path.now }
{
    starts_with_byte(path, b'/') && !begins_at_home(path)
}

/// Whether the location is a settled URL of another scheme, which has this name.
pub(crate) fn is_settled_helper_url(
    url: &UrlRef<'_>,
    laid: Option<&Pieces<'_>>,
    name: &[u8],
) -> bool
    requires { url.now.scheme ≡ helper_url name.now }
    ensures { AreOwn laid.entry url.now → (IsTrue result ↔ IsSettledHelperUrl name.now url.now) }
{
    has_other_host(url)
        && (url.host.is_some() || !is_ftp(name))
        && is_rooted_or_empty(url.path)
        && !is_known_scheme(name)
        && is_scheme_text(name)
        && is_settled_raw(url, laid)
}

/// Whether the host is missing or settled.
fn has_other_host(url: &UrlRef<'_>) -> bool
    ensures { IsTrue result ↔ IfSome url.now.host IsBracketedHost }
{
    match url.host {
        None => true,
        Some(host) => is_bracketed_host(host.as_bytes()),
    }
}

/// Whether the text is empty or begins with `/`.
fn is_rooted_or_empty(path: &[u8]) -> bool
    ensures { IsTrue result ↔ IsRootedOrEmpty path.now }
{
    path.is_empty() || starts_with_byte(path, b'/')
}

/// Whether the location is a settled URL whose path is written raw if no spelling matches it.
fn is_settled_raw(url: &UrlRef<'_>, laid: Option<&Pieces<'_>>) -> bool
    requires { IsWrittenAsUrl url.now }
    ensures { AreOwn laid.entry url.now → (IsTrue result ↔ IsSettledRaw url.now) }
{
    has_raw_path(url) && is_settled_beside_path(url, laid)
}

/// Whether the path is that of a settled URL, and is raw if no spelling matches it.
fn has_raw_path(url: &UrlRef<'_>) -> bool
    ensures { IsTrue result ↔ HasRawPath url.now }
{
    is_plain_path(url) || (is_text(url.path) && is_fair_or_raw(url))
}

/// Whether the path is plain and has no spelling. Most paths are and have none; one pass decides for them.
fn is_plain_path(url: &UrlRef<'_>) -> bool
    ensures { IsTrue result → HasRawPath url.now }
{
    match url.spelling {
        None => is_plain(url.path),
        Some(_) => false,
    }
}

/// Whether the spelling of the path, which is text, is fair if it decodes to the path, and the path is raw if it doesn't.
fn is_fair_or_raw(url: &UrlRef<'_>) -> bool
    requires { IsUtf8 url.now.path }
    ensures { IsTrue result ↔ (HasFairSpelling url.now × IsRawPath url.now) }
{
    match url.spelling {
        Some(spelling) if decodes_to(spelling, url.path) => is_fair_spelling(spelling, url.path),
        _ => is_raw(url.path),
    }
}

/// Whether the text has neither `%` nor white space.
fn is_raw(path: &[u8]) -> bool
    requires { IsUtf8 path.now }
    ensures { IsTrue result ↔ IsRaw path.now }
{
    !has_percent(path) && lacks_white_space(as_text(path))
}

/// Whether the location meets the conditions that all settled URLs have in common.
fn is_settled_url(url: &UrlRef<'_>, laid: Option<&Pieces<'_>>) -> bool
    requires { IsWrittenAsUrl url.now }
    ensures { AreOwn laid.entry url.now → (IsTrue result ↔ IsSettledUrl url.now) }
{
    has_url_path(url) && is_settled_beside_path(url, laid)
}

/// Whether the location meets the conditions that all settled URLs have in common, except for those on paths.
pub fn is_settled_beside_path(url: &UrlRef<'_>, laid: Option<&Pieces<'_>>) -> bool
    requires { IsWrittenAsUrl url.now }
    ensures { AreOwn laid.entry url.now → (IsTrue result ↔ IsSettledBesidePath url.now) }
{
    !url.serialize_alternative_form
        && has_credentials(url)
        && is_hosted(url)
        && has_fitting_text(url, laid)
}

/// Whether a password has a user and isn't empty, and an empty user has a password.
fn has_credentials(url: &UrlRef<'_>) -> bool
    ensures { IsTrue result ↔ HasCredentials url.now }
{
    match url.password {
        None => !has_empty_user(url),
        Some(password) => !password.is_empty() && url.user.is_some(),
    }
}

/// Whether the location has a host if it has a user or a port.
fn is_hosted(url: &UrlRef<'_>) -> bool
    ensures { IsTrue result ↔ IsHosted url.now }
{
    url.host.is_some() || (url.user.is_none() && url.port.is_none())
}

/// Whether the path is text, and a spelling that decodes to it is fair (`IsFairSpelling`).
fn has_url_path(url: &UrlRef<'_>) -> bool
    ensures { IsTrue result ↔ HasUrlPath url.now }
{
    is_text(url.path) && has_fair_spelling(url)
}

/// Whether the spelling of the path is fair if it decodes to the path.
fn has_fair_spelling(url: &UrlRef<'_>) -> bool
    ensures { IsTrue result ↔ HasFairSpelling url.now }
{
    match url.spelling {
        None => true,
        Some(spelling) => {
            !decodes_to(spelling, url.path) || is_fair_spelling(spelling, url.path)
        }
    }
}

/// Whether the spelling, which decodes to the path, is written and read again unchanged.
fn is_fair_spelling(spelling: &[u8], path: &[u8]) -> bool
    requires { DecodesTo spelling.now path.now }
    ensures { IsTrue result ↔ IsFairSpelling spelling.now path.now }
{
    is_text(spelling)
        && has_only_escapes(spelling, path)
        && lacks_white_space(as_text(spelling))
        && begin_alike(spelling, path)
}

/// Whether the spelling, which decodes to the path, has a `%` and is sound. Then, and only then, each `%` makes
/// it longer than the path by two bytes.
pub fn has_only_escapes(spelling: &[u8], path: &[u8]) -> bool
    requires { DecodesTo spelling.now path.now }
    ensures { IsTrue result
        ↔ ((is_sound spelling.now ≡ true) × (has_percent spelling.now ≡ true)) }
{
    let count = count_percents(spelling);
    count > 0 && spelling.len() as u128 == path.len() as u128 + 2 * count as u128
}

/// Whether the texts have the same first byte, or are both empty.
pub fn begin_alike(text: &[u8], other: &[u8]) -> bool
    ensures { IsTrue result ↔ (first_byte text.now ≡ first_byte other.now) }
{
    match (text, other) {
        ([], []) => true,
        ([first, ..], [second, ..]) => *first == *second,
        ([], [_, ..]) | ([_, ..], []) => false,
    }
}
