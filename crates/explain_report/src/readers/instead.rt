//! A URL of the same place as a line, which fewer programs read differently than the line.
//!
//! The URL is written from the fields, parsed, and compared with the location of the line.

ghost use Rattle.std.specs.Prelude.{◌≡◌, IfOk, IfSome, IsTrue, None, false, string_bytes};
ghost use Rattle.explain_report.specs.Places.{AreSamePlace};
ghost use Rattle.explain_report.specs.Secrets.{has_secret};

use crate::advice::slip::has_one_slash;
use crate::text::marked::MarkedLine;
use crate::text::secret::has_secret;
use bstr::{BStr, ByteSlice};
use git_audit::misreading::is_misread;
use gix_url::parse::parse;
use gix_url::{Error, Scheme, Url};
use std::alloc::{AllocError, Global};
use std::fmt::Write;

/// Returns a URL of the place of this location, which is read in the line, if not all programs read the location alike
/// and the URL is better. It is better if all read it alike, or if some group of readers takes another host from the
/// line and none does from the URL. No part of the line or the URL may be a secret.
pub(crate) fn url_instead(
    alloc: Global,
    line: MarkedLine<'_>,
    url: &Url,
) -> Result<Option<String>, AllocError>
    ensures { IfOk result (λ found. IfSome found (λ text. has_secret (string_bytes text) ≡ false)) }
{
    if !url.agrees_with_git() || url.password().is_some() {
        return Ok(None);
    }
    if line.has_secret() || has_one_slash(line.bytes) {
        return Ok(None);
    }
    match rooted_path(url) {
        None => Ok(None),
        Some(path) => better(alloc, line.bytes, url, path),
    }
}

/// The path of a location of Secure Shell, `git://` or a file, if it is valid text and begins with `/`.
fn rooted_path(url: &Url) -> Option<&str> {
    match &url.scheme {
        Scheme::Ssh | Scheme::Git | Scheme::File => {
            let path = url.path.as_bytes().to_str().ok()?;
            path.starts_with('/').then_some(path)
        }
        Scheme::Http | Scheme::Https | Scheme::Ext | Scheme::Helper(_) | Scheme::HelperUrl(_) => {
            None
        }
    }
}

/// The URL with this path, if it is read as the same place and better than the line.
fn better(alloc: Global, line: &[u8], url: &Url, path: &str) -> Result<Option<String>, AllocError>
    ensures { IfOk result (λ found. IfSome found (λ text. has_secret (string_bytes text) ≡ false)) }
{
    let text = url_text(alloc, url, path)?;
    match parse(alloc, BStr::new(text.as_bytes())) {
        Ok(other) => {
            let is_better = is_read_better(line, url, text.as_bytes(), &other);
            drop(other);
            Ok(if_better(text, is_better))
        }
        Err(error) => without(text, error),
    }
}

/// The text, if it is better.
fn if_better(text: String, is_better: bool) -> Option<String>
    ensures { IfSome result (λ it. (it ≡ text) × IsTrue is_better) }
{
    if is_better {
        return Some(text);
    }
    drop(text);
    None
}

/// No URL, since the text is refused. An error means that memory was refused.
fn without(text: String, error: Error) -> Result<Option<String>, AllocError>
    ensures { IfOk result (λ found. found ≡ None) }
{
    drop(text);
    let is_memory = matches!(&error, Error::Memory);
    drop(error);
    if is_memory {
        return Err(AllocError);
    }
    Ok(None)
}

/// The URL with this path, without escapes, and with brackets around a host that contains a colon.
fn url_text(alloc: Global, url: &Url, path: &str) -> Result<String, AllocError> {
    let mut text = String::new(alloc);
    text.push_str(url.scheme.as_str())?;
    text.push_str("://")?;
    if let Some(user) = url.user() {
        text.push_str(user)?;
        text.push_str("@")?;
    }
    push_host(&mut text, url.host())?;
    if let Some(port) = url.port {
        write!(text, ":{port}")?;
    }
    text.push_str(path)?;
    Ok(text)
}

/// Appends a host, in brackets if it contains a colon.
fn push_host(out: &mut String, host: Option<&str>) -> Result<(), AllocError> {
    match host {
        None => Ok(()),
        Some(host) if host.contains(':') => write!(out, "[{host}]"),
        Some(host) => out.push_str(host),
    }
}

/// Whether a text, which is read as another location, names the same place and is read better than the line.
fn is_read_better(line: &[u8], url: &Url, text: &[u8], other: &Url) -> bool
    ensures { IsTrue result → has_secret text.now ≡ false }
{
    if has_secret(text) {
        return false;
    }
    if !is_same_place(url, other) || !other.agrees_with_git() {
        return false;
    }
    if is_misread(text, &other.as_ref()) {
        return false;
    }
    other.is_unambiguous() || is_misread(line, &url.as_ref())
}

/// Whether the fields of both are equal. Neither may have a password.
fn is_same_place(url: &Url, other: &Url) -> bool
    ensures { IsTrue result → AreSamePlace url.now other.now }
{
    url.scheme == other.scheme
        && url.user() == other.user()
        && other.password().is_none()
        && url.host() == other.host()
        && url.port == other.port
        && url.path.as_bytes() == other.path.as_bytes()
}
