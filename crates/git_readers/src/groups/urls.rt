//! The hosts of URLs, by RFC 3986 and by the URL Standard of the WHATWG.

ghost use Rattle.std.specs.Prelude.{◌≡◌, option_map};
ghost use Rattle.git_syntax.specs.Bytes.{colon};
ghost use Rattle.git_syntax.specs.Schemes.{is_web_scheme};
ghost use Rattle.git_readers.specs.Groups as spec;
ghost use Rattle.git_readers.specs.Readers.{cut_first, from};

use crate::groups::cuts::{at_first, authority, before_first, host_in, unless_empty};
use crate::host::is_named;
use git_syntax::bytes::{is_scheme_text, starts_with_byte};

/// The host of a URL, by RFC 3986.
pub(super) fn url_host(text: &[u8]) -> Option<&[u8]>
    ensures { option_map (λ t. t.now) result ≡ spec.url_host (spec.url_rest text.now) }
{
    let rest = url_rest(text)?;
    unless_empty(host_in(authority(rest)))
}

/// The text from the authority of a URL, or of a relative URL, on.
fn url_rest(text: &[u8]) -> Option<&[u8]>
    ensures { option_map (λ t. t.now) result ≡ spec.url_rest text.now }
{
    if starts_with_byte(text, b'/') {
        after_slashes(text)
    } else {
        after_scheme(text)
    }
}

/// The text that follows a scheme and `://`.
fn after_scheme(text: &[u8]) -> Option<&[u8]>
    ensures { option_map (λ t. t.now) result ≡ spec.after_scheme (cut_first colon text.now) }
{
    match at_first(text, b':') {
        None => None,
        Some((scheme, rest)) => {
            if is_scheme_text(scheme) {
                after_slashes(rest)
            } else {
                None
            }
        }
    }
}

/// The text that follows two slashes.
fn after_slashes(text: &[u8]) -> Option<&[u8]>
    ensures { option_map (λ t. t.now) result ≡ spec.after_slashes text.now }
{
    match text {
        [b'/', b'/', rest @ ..] => Some(rest),
        _ => None,
    }
}

/// The host of a URL of HTTP, by the URL Standard.
pub(super) fn standard_host(text: &[u8]) -> Option<&[u8]>
    ensures { option_map (λ t. t.now) result ≡ spec.standard_host (spec.standard_rest text.now) }
{
    let rest = standard_rest(text)?;
    unless_empty(host_in(before_first(authority(rest), b'\\')))
}

/// The text after a scheme of HTTP, its colon and any slashes.
fn standard_rest(text: &[u8]) -> Option<&[u8]>
    ensures { option_map (λ t. t.now) result ≡ spec.standard_rest text.now }
{
    match at_first(text, b':') {
        None => None,
        Some((scheme, rest)) => {
            if is_of_http(scheme) {
                Some(from_no_slash(rest))
            } else {
                None
            }
        }
    }
}

/// The text without the `/` and `\` at its front.
fn from_no_slash(text: &[u8]) -> &[u8]
    ensures { result.now ≡ from spec.is_no_slash text.now }
{
    let mut rest = text;
    while let [b'/' | b'\\', suffix @ ..] = rest {
        rest = suffix;
    }
    rest
}

/// Whether the scheme is one of HTTP.
fn is_of_http(scheme: &[u8]) -> bool
    ensures { result ≡ is_web_scheme scheme.now }
{
    is_named(scheme, "http") || is_named(scheme, "https")
}
