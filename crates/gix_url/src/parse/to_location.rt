//! Builds the location that the fields of a URL denote. Each field is decoded once, into an owned text, and
//! edited in place.

ghost use Rattle.std.specs.Prelude.{◌≡◌, ◌<◌, ◌↔◌, List, ℕ, IsTrue, IfOk, IfSome, IsUtf8, true, length, option_map, string_bytes};
ghost use Rattle.bstr.specs.Owned.{bstring_bytes};
ghost use Rattle.percent_encoding.specs.Percent.{percent_decode};
ghost use Rattle.git_syntax.specs.Escapes.{has_percent};
ghost use Rattle.git_syntax.specs.Grammar as grammar;
ghost use Rattle.git_syntax.specs.Internal.FoundPieces.{IsReadyUrl, host_for, url_location};
ghost use Rattle.git_syntax.specs.Grammar.{path_for};
ghost use Rattle.git_syntax.specs.Internal.HostPieces.{host_of};
ghost use Rattle.git_syntax.specs.Internal.SchemeRules.{AreRulesOf, scheme_named};
ghost use Rattle.git_syntax.specs.Schemes.{scheme_of};
ghost use Rattle.git_syntax.specs.Internal.UrlPieces.{decoded_option, syntax_of};

use crate::decoded::{decode, decoded_text};
use crate::location::Url;
use crate::parse::copies::copy;
use crate::parse::from_fields::from_fields;
use crate::parse::host::build_host;
use crate::scheme::Scheme;
use bstr::BString;
use git_syntax::home::begins_at_home;
use git_syntax::host::{HostPort, port_of};
use git_syntax::rules::Rules;
use git_syntax::scheme::KnownScheme;
use git_syntax::ssh_host::ssh_host;
use git_syntax::text::as_text;
use git_syntax::url_syntax::ParsedUrl;
use std::alloc::{AllocError, Global};

/// The location of a URL with these fields, by the rules of its scheme.
pub(super) fn url_location(
    alloc: Global,
    rules: Rules,
    url: ParsedUrl<'_>,
) -> Result<Url, AllocError>
    requires { IsReadyUrl rules url }
    ensures { IfOk result
        (λ v. v ≡ url_location (scheme_of url.entry.scheme.now) (syntax_of url.entry)) }
{
    let scheme = Scheme::of_known_scheme(alloc, rules.known, as_text(url.scheme))?;
    let user = decoded_part(alloc, url.user)?;
    let password = decoded_part(alloc, url.password)?;
    let host = host_for(rules.known, host_text(alloc, url.host)?);
    let path = path_for(alloc, rules, url)?;
    let spelling = retained_spelling(alloc, url)?;
    let port = port_of(url.host);
    Ok(from_fields(scheme, user, password, host, false, port, path, spelling))
}

/// The text of a user or a password, decoded, if there is one.
fn decoded_part(alloc: Global, piece: Option<&[u8]>) -> Result<Option<String>, AllocError>
    requires { IfSome (decoded_option piece) IsUtf8 }
    ensures { IfOk result (λ text. option_map string_bytes text ≡ decoded_option piece.entry) }
{
    match piece {
        None => Ok(None),
        Some(piece) => Ok(Some(decoded_text(alloc, piece)?)),
    }
}

/// The text of a host, if there is one.
fn host_text(alloc: Global, host: Option<HostPort<'_>>) -> Result<Option<String>, AllocError>
    requires { IfSome (host_of host) IsUtf8 }
    ensures { IfOk result (λ text. option_map string_bytes text ≡ host_of host.entry) }
{
    match host {
        None => Ok(None),
        Some(host) => Ok(Some(build_host(alloc, host)?)),
    }
}

/// The host of a location: without brackets and colon for Secure Shell, unchanged for any other scheme.
fn host_for(known: KnownScheme, host: Option<String>) -> Option<String>
    ensures { (scheme : List ℕ)
        → option_map string_bytes result
        ≡ host_for (scheme_named known scheme) (option_map string_bytes host) }
{
    match host {
        None => None,
        Some(host) => {
            if is_ssh(known) {
                Some(ssh_host(host))
            } else {
                Some(host)
            }
        }
    }
}

/// The path of a location, decoded.
fn path_for(alloc: Global, rules: Rules, url: ParsedUrl<'_>) -> Result<BString, AllocError>
    requires { AreRulesOf url.scheme.now rules }
    ensures { IfOk result
        (λ bytes. bstring_bytes bytes
        ≡ path_for (scheme_of url.entry.scheme.now) (percent_decode url.entry.path.now)) }
{
    if rules.needs_path {
        return Ok(BString::new(from_home(decode(alloc, url.path)?)));
    }
    if rules.web {
        return Ok(BString::new(decode(alloc, or_root(url.path))?));
    }
    Ok(BString::new(decode(alloc, url.path)?))
}

/// The path without the `/` before a `~` at its front, in place.
fn from_home(mut path: Vec<u8>) -> Vec<u8>
    ensures { result.items ≡ grammar.from_home path.items }
{
    if begins_at_home(path.as_slice()) {
        let _ = path.remove(0);
    }
    path
}

/// The path, or `/` if it is empty.
fn or_root(path: &[u8]) -> &[u8]
    ensures { percent_decode result.now ≡ grammar.or_root (percent_decode path.now) }
{
    if path.is_empty() { b"/" } else { path }
}

/// The spelling of the path, if it has an escape.
fn retained_spelling(alloc: Global, url: ParsedUrl<'_>) -> Result<Option<BString>, AllocError>
    requires { url.escaped ≡ has_percent url.path.now }
    ensures { IfOk result
        (λ spelling. option_map bstring_bytes spelling
        ≡ grammar.retained_spelling url.entry.path.now) }
{
    if url.escaped {
        Ok(Some(copy(alloc, url.path)?))
    } else {
        Ok(None)
    }
}

/// Whether the scheme is that of Secure Shell.
fn is_ssh(known: KnownScheme) -> bool
    ensures { IsTrue result ↔ (known ≡ KnownScheme.Ssh) }
{
    matches!(known, KnownScheme::Ssh)
}
