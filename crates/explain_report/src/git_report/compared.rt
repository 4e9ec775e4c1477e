//! The place that Git reads in the text of a location, compared with the location.

ghost use Rattle.std.specs.Prelude.{◌≡◌, IsTrue, option_map};
ghost use Rattle.git_syntax.specs.Authority.{unless_empty};
ghost use Rattle.explain_report.specs.Places as spec;

use crate::change::push_change;
use crate::git_report::protocol_name;
use crate::memory::both;
use crate::text::line::Quoted;
use gix_url::transport::{GitPlace, Protocol};
use gix_url::{Scheme, Url};
use std::alloc::{AllocError, Global};
use std::fmt::Display;

/// The built-in transport of Git for the scheme of the location.
fn own_protocol(url: &Url) -> Option<Protocol>
    ensures { result ≡ spec.own_protocol url.now.scheme }
{
    match &url.scheme {
        Scheme::Ssh => Some(Protocol::Ssh),
        Scheme::Git => Some(Protocol::Git),
        Scheme::File => Some(Protocol::File),
        Scheme::Http | Scheme::Https | Scheme::Ext | Scheme::Helper(_) | Scheme::HelperUrl(_) => {
            None
        }
    }
}

/// The user of the location.
fn user_of(url: &Url) -> Option<&[u8]>
    ensures { option_map (λ it. it.now) result ≡ url.now.user }
{
    match url.user() {
        Some(user) => Some(user.as_bytes()),
        None => None,
    }
}

/// The host of the location, unless it is empty.
fn host_of(url: &Url) -> Option<&[u8]>
    ensures { option_map (λ it. it.now) result ≡ spec.named_host url.now.host }
{
    match url.host() {
        Some(host) => unless_empty(host.as_bytes()),
        None => None,
    }
}

/// The text, unless it is empty.
fn unless_empty(text: &[u8]) -> Option<&[u8]>
    ensures { option_map (λ it. it.now) result ≡ unless_empty text.now }
{
    match text {
        [] => None,
        _ => Some(text),
    }
}

/// Whether the fields that Git reads are those of the location.
pub(super) fn is_same(url: &Url, found: &GitPlace<'_>) -> bool
    ensures { IsTrue result → spec.IsPlaceOf url.now found.now }
{
    own_protocol(url) == Some(found.protocol)
        && user_of(url) == found.user
        && host_of(url) == found.host
        && url.port == found.port
        && url.path.as_bytes() == found.path
}

/// The place that Git reads, in words.
pub(super) fn words_of(
    alloc: Global,
    url: &Url,
    found: &GitPlace<'_>,
) -> Result<String, AllocError> {
    if is_same(url, found) {
        return String::from_str(alloc, "reads the same in its text, which isn't promised");
    }
    let mut words = String::new(alloc);
    let written = differences(&mut words, url, found);
    let (words, ()) = both(words, written)?;
    Ok(words)
}

/// Appends the fields that Git reads differently.
fn differences(out: &mut String, url: &Url, found: &GitPlace<'_>) -> Result<(), AllocError> {
    let protocol = Some(protocol_name(found.protocol).as_bytes());
    let own = Some(url.scheme.as_str().as_bytes());
    let path = Some(url.path.as_bytes());
    out.push_str("reads")?;
    difference(out, "protocol", own.map(Quoted), protocol.map(Quoted))?;
    difference(
        out,
        "user",
        user_of(url).map(Quoted),
        found.user.map(Quoted),
    )?;
    difference(
        out,
        "host",
        host_of(url).map(Quoted),
        found.host.map(Quoted),
    )?;
    difference(out, "port", url.port, found.port)?;
    difference(out, "path", path.map(Quoted), Some(Quoted(found.path)))?;
    out.push_str(" in its text")
}

/// Appends a field that Git reads differently, after a comma unless it is the first one.
fn difference<T: Display + PartialEq + Drop>(
    out: &mut String,
    field: &str,
    here: Option<T>,
    instead: Option<T>,
) -> Result<(), AllocError> {
    if here == instead {
        return Ok(());
    }
    out.push_str(if out.as_str() == "reads" { " " } else { ", " })?;
    push_change(out, field, here, instead)
}
