//! Builds the borrowed location that found slices denote. Fields whose bytes are not in the text are written
//! into the caller's buffer.

ghost use Rattle.std.specs.Prelude.{◌≡◌, ◌≤◌, List, ℕ, IfSome, IsUtf8, false, length, option_map};
ghost use Rattle.std.specs.Option.{option_copied};
ghost use Rattle.git_syntax.specs.Authority.{unless_empty};
ghost use Rattle.git_syntax.specs.Internal.FoundPieces.{AreScpTexts, IsReady, IsReadyUrl, host_for, denoted, parts_length, buffer_length_for, scp_host_of, scp_slice, url_location};
ghost use Rattle.percent_encoding.specs.Percent.{percent_decode};
ghost use Rattle.git_syntax.specs.Escapes.{has_percent};
ghost use Rattle.git_syntax.specs.Grammar.{path_for, retained_spelling, scp_location};
ghost use Rattle.git_syntax.specs.Internal.SchemeRules.{AreRulesOf, scheme_named};
ghost use Rattle.git_syntax.specs.Schemes.{scheme_of};
ghost use Rattle.git_syntax.specs.Internal.UrlPieces.{syntax_of};
ghost use Rattle.git_syntax.specs.Location.{path_alone};
ghost use Rattle.git_syntax.specs.Location.Scheme.{file};
ghost use Rattle.git_syntax.specs.Views.{borrowed_scheme};

use crate::buffer::{host_in, optional_in, scp_host_in};
use crate::url_ref::UrlRef;
use git_syntax::escape::decode_into;
use git_syntax::found::{Found, ScpHost};
use git_syntax::home::{from_home, or_root};
use git_syntax::host::port_of;
use git_syntax::rules::Rules;
use git_syntax::scheme::{KnownScheme, SchemeRef, helper_scheme};
use git_syntax::ssh_host::ssh_host_text;
use git_syntax::text::as_text;
use git_syntax::url_syntax::ParsedUrl;

/// The location that found slices denote.
pub(crate) fn to_url_ref<'a>(found: Found<'a>, buffer: &'a mut [u8]) -> UrlRef<'a>
    requires ready { IsReady found }
    requires buffer { buffer_length_for found ≤ length buffer.old }
    ensures { result ≡ denoted found.entry }
{
    match found {
        Found::Helper { name, address } => path_alone(helper_scheme(as_text(name)), true, address),
        Found::Local { path } => path_alone(SchemeRef::File, true, path),
        Found::File { host, path } => file_location(host, path),
        Found::Ext { text } => path_alone(SchemeRef::Ext, true, text),
        Found::Url { rules, url } => url_location(rules, url, buffer),
        Found::Scp { user, host, path } => scp_location(user, host, path, buffer),
    }
}

/// A location of this scheme, flag and path only.
fn path_alone<'a>(scheme: SchemeRef<'a>, flag: bool, path: &'a [u8]) -> UrlRef<'a>
    ensures { result ≡ path_alone (borrowed_scheme scheme.entry) flag path.now }
{
    UrlRef {
        scheme,
        user: None,
        password: None,
        host: None,
        serialize_alternative_form: flag,
        port: None,
        path,
        spelling: None,
    }
}

/// The location of a file URL.
fn file_location<'a>(host: &'a [u8], path: &'a [u8]) -> UrlRef<'a>
    requires { IsUtf8 host.now }
    ensures { result ≡ record (path_alone file false path.now) { host = unless_empty host.now } }
{
    let mut url = path_alone(SchemeRef::File, false, path);
    if !host.is_empty() {
        url.host = Some(as_text(host));
    }
    url
}

/// The location of a URL with these fields, by the rules of its scheme.
fn url_location<'a>(rules: Rules, url: ParsedUrl<'a>, buffer: &'a mut [u8]) -> UrlRef<'a>
    requires ready { IsReadyUrl rules url }
    requires buffer { parts_length (syntax_of url) ≤ length buffer.old }
    ensures { result ≡ url_location (scheme_of url.entry.scheme.now) (syntax_of url.entry) }
{
    let (user, buffer) = optional_in(url.user, buffer);
    let (password, buffer) = optional_in(url.password, buffer);
    let (host, buffer) = host_in(url.host, buffer);
    let path = path_in(url, buffer);
    UrlRef {
        scheme: SchemeRef::of_known_scheme(rules.known, as_text(url.scheme)),
        user: text_of(user),
        password: text_of(password),
        host: text_of(host_for(rules.known, host)),
        serialize_alternative_form: false,
        port: port_of(url.host),
        path: path_for(rules, url.scheme, path),
        spelling: retained_spelling(url),
    }
}

/// The bytes, which may be missing, as text.
fn text_of(bytes: Option<&[u8]>) -> Option<&str>
    requires { IfSome (option_copied bytes) IsUtf8 }
    ensures { option_map (λ t. t.now) result ≡ option_copied bytes.entry }
{
    match bytes {
        None => None,
        Some(bytes) => Some(as_text(bytes)),
    }
}

/// The host of a location: without brackets and colon for Secure Shell, unchanged for any other scheme.
fn host_for(known: KnownScheme, host: Option<&[u8]>) -> Option<&[u8]>
    ensures { (scheme : List ℕ)
        → option_copied result
        ≡ host_for (scheme_named known scheme) (option_copied host.entry) }
{
    match (known, host) {
        (KnownScheme::Ssh, Some(host)) => Some(ssh_host_text(host)),
        _ => host,
    }
}

/// The path of a location, from the decoded path of its URL.
fn path_for<'a>(rules: Rules, scheme: &[u8], path: &'a [u8]) -> &'a [u8]
    requires { AreRulesOf scheme.now rules }
    ensures { result.now ≡ path_for (scheme_of scheme.now) path.now }
{
    let _ = scheme;
    if rules.needs_path {
        return from_home(path);
    }
    if rules.web {
        return or_root(path);
    }
    path
}

/// The decoded path of a URL.
fn path_in<'a>(url: ParsedUrl<'a>, buffer: &'a mut [u8]) -> &'a [u8]
    requires escaped { url.escaped ≡ has_percent url.path.now }
    requires buffer { length (percent_decode url.path.now) ≤ length buffer.old }
    ensures { result.now ≡ percent_decode url.entry.path.now }
{
    if !url.escaped {
        return url.path;
    }
    let size = decode_into(buffer, url.path);
    buffer.split_at(size).0
}

/// The spelling of the path of a URL, if it has an escape.
fn retained_spelling<'a>(url: ParsedUrl<'a>) -> Option<&'a [u8]>
    requires { url.escaped ≡ has_percent url.path.now }
    ensures { option_copied result ≡ retained_spelling url.entry.path.now }
{
    if url.escaped { Some(url.path) } else { None }
}

/// A location of Secure Shell with this user, this host and this path.
fn scp_location<'a>(
    user: Option<&'a [u8]>,
    host: ScpHost<'a>,
    path: &'a [u8],
    buffer: &'a mut [u8],
) -> UrlRef<'a>
    requires texts { AreScpTexts (option_copied user) (scp_host_of host) }
    requires buffer { length (scp_slice host) ≤ length buffer.old }
    ensures { result
        ≡ scp_location (option_copied user.entry) (scp_host_of host.entry) path.now }
{
    let host = scp_host_in(host, buffer);
    let mut url = path_alone(SchemeRef::Ssh, true, from_home(path));
    url.user = text_of(user);
    url.host = Some(as_text(host));
    url
}
