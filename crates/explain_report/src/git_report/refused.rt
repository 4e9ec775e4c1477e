//! The report of how Git reads a refused line.

ghost use Rattle.std.specs.Prelude.{◌≡◌, ◌==◌, IfOk, IsTrue, None, Some, option_map};
ghost use Rattle.std.specs.List.{list_any};
ghost use Rattle.explain_report.specs.Marks.{some_passes};
ghost use Rattle.explain_report.specs.Places as spec;
ghost use Rattle.explain_report.specs.Reports.{WithholdsSecret};

use crate::git_report::{GitReads, PASSED_ON, in_words, with_fields};
use crate::memory::both;
use crate::text::line::Quoted;
use crate::text::secret::has_secret;
use gix_url::transport::{self, Buffers, GitPlace, Protocol, Unread};
use std::alloc::{AllocError, Global};
use std::fmt::Write;

impl GitReads {
    /// Returns how Git reads a refused line, or `None` if Git passes the line to a remote helper.
    pub(crate) fn in_refused(alloc: Global, line: &[u8]) -> Result<Option<GitReads>, AllocError>
        ensures { IfOk result (WithholdsSecret line.now) }
    {
        let mut buffers = Buffers::new(alloc);
        let report = match transport::reading(line, &mut buffers) {
            Ok(found) => GitReads::of_refused(alloc, line, &found),
            Err(Unread::RemoteHelper) => return Ok(None),
            Err(why) => unread_refused(alloc, why),
        };
        drop(buffers);
        Ok(Some(report?))
    }

    /// The report of a place that Git reads in a refused line.
    fn of_refused(alloc: Global, line: &[u8], found: &GitPlace<'_>) -> Result<GitReads, AllocError>
        ensures { IfOk result (λ it. WithholdsSecret line.now (Some it)) }
    {
        if has_secret(line) {
            withheld_all_the_same(alloc)
        } else {
            report_all_the_same(alloc, found)
        }
    }
}

/// The report of a place that Git reads in a refused line, if a part of the line may be a secret.
fn withheld_all_the_same(alloc: Global) -> Result<GitReads, AllocError>
    ensures { IfOk result (λ it. (it.user ≡ None) × (it.host ≡ None) × (it.path ≡ None)) }
{
    let words = "reads a place in it all the same, and a part of it may be a secret";
    in_words(alloc, words, "Password")
}

/// The report of a place that Git reads in a refused line, without its fields if a part of it, once decoded, may be a
/// secret.
fn report_all_the_same(alloc: Global, found: &GitPlace<'_>) -> Result<GitReads, AllocError>
    ensures { IfOk result (λ it. IsTrue (spec.place_has_secret found.now)
        → (it.user ≡ None) × (it.host ≡ None) × (it.path ≡ None)) }
{
    if holds_secret(found) {
        return withheld_all_the_same(alloc);
    }
    let mut words = String::new(alloc);
    let written = all_the_same(&mut words, found);
    let (words, ()) = both(words, written)?;
    with_fields(alloc, found, false, words)
}

/// Whether the user has the mark that ends a user, the host has the mark that ends a password, or any of the user, host
/// and path may contain a secret.
fn holds_secret(found: &GitPlace<'_>) -> bool
    ensures { result ≡ spec.place_has_secret found.now }
{
    may_hide_if_some(found.user, b':')
        || may_hide_if_some(found.host, b'@')
        || has_secret(found.path)
}

/// Whether the part is present, and has the mark or may contain a secret.
fn may_hide_if_some(part: Option<&[u8]>, mark: u8) -> bool
    ensures { result ≡ some_passes (spec.may_hide mark) (option_map (λ it. it.now) part.entry) }
{
    match part {
        Some(part) => has_mark(part, mark) || has_secret(part),
        None => false,
    }
}

/// Whether the text contains the mark.
fn has_mark(text: &[u8], mark: u8) -> bool
    ensures { result ≡ list_any (λ b. b == mark) text.now }
{
    text.iter().any(|byte| *byte == mark)
}

/// Appends how Git uses the place that it reads in a refused line.
fn all_the_same(out: &mut String, found: &GitPlace<'_>) -> Result<(), AllocError> {
    match (found.protocol, found.host) {
        (Protocol::File, _) => {
            let path = Quoted(found.path);
            write!(out, "opens the path {path}")
        }
        (Protocol::Ssh | Protocol::Git, None) => out.push_str("connects to a host without a name"),
        (Protocol::Ssh | Protocol::Git, Some(host)) => {
            let host = Quoted(host);
            write!(out, "connects to {host}")
        }
    }?;
    if let Some(port) = found.port {
        write!(out, ", port {port}")?;
    }
    out.push_str(", all the same")
}

/// The report of a refused line in which Git reads no place. An error means that memory was refused.
fn unread_refused(alloc: Global, why: Unread) -> Result<GitReads, AllocError>
    ensures { IfOk result (λ it. (it.user ≡ None) × (it.host ≡ None) × (it.path ≡ None)) }
{
    let (name, words) = match why {
        Unread::Memory => return Err(AllocError),
        Unread::HomeOrHere => ("HomeOrHere", "takes it for a path that begins with ~"),
        Unread::ByteZero => ("ByteZero", "gets only the bytes before its byte 0"),
        Unread::Option => ("Option", "takes it for an option"),
        Unread::RemoteHelper => ("RemoteHelper", PASSED_ON),
        Unread::SecureShellUrl => (
            "SecureShellUrl",
            "passes a part of it to Secure Shell, which reads it as a URL",
        ),
        Unread::Refused => ("Refused", "refuses it too"),
    };
    in_words(alloc, words, name)
}
