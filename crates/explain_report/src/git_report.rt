//! The report of how Git reads the text of a location, if it isn't proved to read the same, and how it reads a refused
//! line.
//!
//! The report shows no field if the location has a password, since Git may read the password as a part of another
//! field, and none if a part of a refused line, decoded or not, may be a secret.

ghost use Rattle.std.specs.Prelude.{◌≡◌, IfOk, IfSome, IsSome, None, Some, false, true};
ghost use Rattle.git_audit.specs.Dangers.{is_of_http};
ghost use Rattle.git_class.specs.WebConditions.{IsFirstUnmet};
ghost use Rattle.explain_report.specs.Places as spec;

mod compared;
mod refused;

use crate::facts::Facts;
use crate::git_report::compared::{is_same, words_of};
use crate::memory::both;
use crate::text::line::Quoted;
use crate::text::{lossy, lossy_part};
use crate::web;
use bstr::ByteSlice;
use gix_url::transport::{self, Buffers, GitPlace, Protocol, Unread};
use gix_url::{Scheme, Url, WebCondition};
use serde::Serialize;
use std::alloc::{AllocError, Global};
use std::fmt::Write;

/// The words for a text that Git passes to a remote helper.
pub const PASSED_ON: &str = "passes its text to a remote helper, whose reading was not compared";

/// How Git reads the text of a location.
#[derive(Drop, Serialize)]
pub struct GitReads {
    /// The built-in transport of Git.
    pub protocol: Option<&'static str>,
    pub user: Option<String>,
    pub host: Option<String>,
    pub port: Option<u16>,
    pub path: Option<String>,
    /// Whether all of these are equal to the location's fields, although this isn't proved.
    pub same: bool,
    /// The name of the reason why no field is reported.
    pub why: Option<&'static str>,
    /// The report in words.
    #[serde(skip)]
    pub words: String,
}

impl GitReads {
    /// Returns how Git reads the text of the location. Returns `None` if Git is known to read the same, if the scheme
    /// is that of a remote helper, or if the location has no text.
    pub(crate) fn of(
        alloc: Global,
        url: &Url,
        facts: &Facts,
    ) -> Result<Option<GitReads>, AllocError>
        ensures hidden { IfOk result (λ reads. IfSome reads (λ it.
            IsSome url.now.password → (it.user ≡ None) × (it.host ≡ None) × (it.path ≡ None))) }
    {
        match &facts.text {
            Ok(text) if !is_for_helper(url) && !facts.agrees_with_git => Ok(Some(GitReads::in_text(
                alloc,
                url,
                text.as_bytes(),
                facts.is_settled,
            )?)),
            _ => Ok(None),
        }
    }

    /// The report of this text of the location.
    fn in_text(
        alloc: Global,
        url: &Url,
        text: &[u8],
        is_settled: bool,
    ) -> Result<GitReads, AllocError>
        ensures { IfOk result (λ it.
            IsSome url.now.password → (it.user ≡ None) × (it.host ≡ None) × (it.path ≡ None)) }
    {
        if is_of_web(url) {
            let unmet = unmet_condition(url, is_settled);
            let words = web::words(unmet, url.host().unwrap_or(""));
            return in_words(alloc, words, web::name(unmet));
        }
        let mut buffers = Buffers::new(alloc);
        let report = GitReads::by_transport(alloc, url, text, &mut buffers);
        drop(buffers);
        report
    }

    /// The report of how Git's built-in transports read this text of the location.
    fn by_transport(
        alloc: Global,
        url: &Url,
        text: &[u8],
        buffers: &mut Buffers,
    ) -> Result<GitReads, AllocError>
        ensures { IfOk result (λ it.
            IsSome url.now.password → (it.user ≡ None) × (it.host ≡ None) × (it.path ≡ None)) }
    {
        match transport::reading(text, buffers) {
            Ok(found) => GitReads::of_place(alloc, url, &found),
            Err(why) => GitReads::of_unread(alloc, url, text, why),
        }
    }

    /// The report of a place that Git reads.
    fn of_place(alloc: Global, url: &Url, found: &GitPlace<'_>) -> Result<GitReads, AllocError>
        ensures { IfOk result (λ it.
            IsSome url.now.password → (it.user ≡ None) × (it.host ≡ None) × (it.path ≡ None)) }
    {
        if url.password().is_some() {
            withheld(alloc)
        } else {
            report_reading(alloc, url, found)
        }
    }

    /// The report of a text in which Git reads no place. A local path that begins with `~` may have a password.
    fn of_unread(alloc: Global, url: &Url, text: &[u8], why: Unread) -> Result<GitReads, AllocError>
        ensures { IfOk result (λ it. (it.user ≡ None) × (it.host ≡ None) × (it.path ≡ None)) }
    {
        if why == Unread::HomeOrHere && url.password().is_some() {
            withheld(alloc)
        } else {
            unread(alloc, text, why)
        }
    }
}

/// The first condition that a location of HTTP doesn't meet, which is `Settled` if the location isn't settled.
fn unmet_condition(url: &Url, is_settled: bool) -> Option<WebCondition>
    ensures unsettled { is_settled ≡ false → result ≡ Some WebCondition.Settled }
    ensures first { is_settled ≡ true → IfSome result (λ unmet. IsFirstUnmet unmet url.now) }
{
    if is_settled {
        url.unmet_web_condition()
    } else {
        Some(WebCondition::Settled)
    }
}

/// The report of a place that Git reads, with its fields.
fn report_reading(alloc: Global, url: &Url, found: &GitPlace<'_>) -> Result<GitReads, AllocError> {
    let words = words_of(alloc, url, found)?;
    with_fields(alloc, found, is_same(url, found), words)
}

/// The report of a place that Git reads, in these words.
fn with_fields(
    alloc: Global,
    found: &GitPlace<'_>,
    same: bool,
    words: String,
) -> Result<GitReads, AllocError> {
    let ((words, user), host) = both(
        both(words, lossy_part(alloc, found.user))?,
        lossy_part(alloc, found.host),
    )?;
    let (((words, user), host), path) = both(((words, user), host), lossy(alloc, found.path))?;
    Ok(GitReads {
        protocol: Some(protocol_name(found.protocol)),
        user,
        host,
        port: found.port,
        path: Some(path),
        same,
        why: None,
        words,
    })
}

/// A report without fields.
fn without_fields(words: String, why: &'static str) -> GitReads
    ensures { (result.user ≡ None) × (result.host ≡ None) × (result.path ≡ None) }
{
    GitReads {
        protocol: None,
        user: None,
        host: None,
        port: None,
        path: None,
        same: false,
        why: Some(why),
        words,
    }
}

/// A report without fields, in these words.
fn in_words(alloc: Global, words: &str, why: &'static str) -> Result<GitReads, AllocError>
    ensures { IfOk result (λ it. (it.user ≡ None) × (it.host ≡ None) × (it.path ≡ None)) }
{
    Ok(without_fields(String::from_str(alloc, words)?, why))
}

/// The report of a text that has a password.
fn withheld(alloc: Global) -> Result<GitReads, AllocError>
    ensures { IfOk result (λ it. (it.user ≡ None) × (it.host ≡ None) × (it.path ≡ None)) }
{
    let words = "reads other parts in its text, which has a password";
    in_words(alloc, words, "Password")
}

/// The report of a text in which Git reads no place. An error means that memory was refused.
fn unread(alloc: Global, text: &[u8], why: Unread) -> Result<GitReads, AllocError>
    ensures { IfOk result (λ it. (it.user ≡ None) × (it.host ≡ None) × (it.path ≡ None)) }
{
    let (name, words) = match why {
        Unread::Memory => return Err(AllocError),
        Unread::HomeOrHere => return in_two_places(alloc, text),
        Unread::ByteZero => ("ByteZero", "gets only the bytes of its text before byte 0"),
        Unread::Option => ("Option", "takes its text for an option"),
        Unread::RemoteHelper => ("RemoteHelper", PASSED_ON),
        Unread::SecureShellUrl => (
            "SecureShellUrl",
            "passes a part of its text to Secure Shell, which reads it as a URL",
        ),
        Unread::Refused => ("Refused", "refuses its text"),
    };
    in_words(alloc, words, name)
}

/// The report of a local path that begins with `~`.
fn in_two_places(alloc: Global, text: &[u8]) -> Result<GitReads, AllocError>
    ensures { IfOk result (λ it. (it.user ≡ None) × (it.host ≡ None) × (it.path ≡ None)) }
{
    let mut words = String::new(alloc);
    let written = two_places(&mut words, text);
    let (words, ()) = both(words, written)?;
    Ok(without_fields(words, "HomeOrHere"))
}

/// Appends how the commands of Git read a local path that begins with `~`.
fn two_places(out: &mut String, text: &[u8]) -> Result<(), AllocError> {
    let (name, below) = match text.find_byte(b'/') {
        Some(at) => text.split_at(at),
        None => (text, b"".as_slice()),
    };
    let (here, below) = (Quoted(text), Quoted(below));
    write!(
        out,
        "clone reads {here} in the current folder, fetch and push {below} below "
    )?;
    match name {
        [_, user @ ..] if !user.is_empty() => {
            let user = Quoted(user);
            write!(out, "the home of {user}")
        }
        _ => out.push_str("$HOME"),
    }
}

/// Whether the location is one of HTTP, whose text Git passes to curl.
pub fn is_of_web(url: &Url) -> bool
    ensures { result ≡ is_of_http url.now.scheme }
{
    matches!(&url.scheme, Scheme::Http | Scheme::Https)
}

/// Whether Git passes the text of the location to a remote helper other than curl because of its scheme.
fn is_for_helper(url: &Url) -> bool
    ensures { result ≡ spec.is_for_helper url.now.scheme }
{
    matches!(
        &url.scheme,
        Scheme::Ext | Scheme::Helper(_) | Scheme::HelperUrl(_)
    )
}

/// The name of a transport.
fn protocol_name(protocol: Protocol) -> &'static str {
    match protocol {
        Protocol::Ssh => "ssh",
        Protocol::Git => "git",
        Protocol::File => "file",
    }
}
