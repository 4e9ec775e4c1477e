//! The way to show a line that is read as a location.
//!
//! If the password is the only possible secret, the line is shown with `redacted` in its place. Otherwise the text
//! shown of the line is parsed in place of the line, and reported if it has the same parts and verdicts. If it hasn't,
//! nothing is reported of the location.

ghost use Rattle.std.specs.Prelude.{◌≡◌, ◌++◌, ℕ, IfOk, IsTrue, List, option_map};
ghost use Rattle.git_syntax.specs.Grammar.{Spells};
ghost use Rattle.gix_url.specs.Location.{Location};
ghost use Rattle.explain_report.specs.Secrets.{HaveSameVerdicts, IsSeen, IsShownAround, has_secret, shown_as, shown_of};

use crate::text::marked::MarkedLine;
use crate::text::place::is_moved;
use crate::text::secret::{is_same, shown_bytes, word_for};
use bstr::BStr;
use git_audit::secret::law::law_secrets;
use git_parts::parts::{Parts, Span, parts_of};
use gix_url::parse::parse;
use gix_url::{Error, Url};
use std::alloc::{AllocError, Global};

/// The way to show a line that is read as a location.
#[derive(Drop)]
pub enum Seen {
    /// The line itself, with `redacted` in place of its password if it has one.
    Line,
    /// Another line, which is read as another location.
    Other(OtherLine),
    /// Nothing of the location is shown.
    Withheld,
}

/// A line shown in place of one that may contain secrets.
#[derive(Drop)]
pub struct OtherLine {
    pub line: Vec<u8>,
    /// The location that this line is read as.
    pub url: Url,
}

impl Seen {
    /// Returns the way to show a line that is read as this location.
    pub fn of(alloc: Global, marked: MarkedLine<'_>, url: &Url) -> Result<Seen, AllocError>
        ensures { IfOk result (IsSeen marked.entry.bytes.now url.now) }
    {
        law_secrets();
        let line = marked.bytes;
        if !marked.has_secret() {
            return Ok(Seen::Line);
        }
        let shown = shown_bytes(alloc, line)?;
        if is_around_password(line, shown.as_slice()) {
            drop(shown);
            return Ok(Seen::Line);
        }
        Seen::of_other(alloc, line, url, shown)
    }

    /// The way to show a line, if possibly this shown text takes its place.
    fn of_other(alloc: Global, line: &[u8], url: &Url, shown: Vec<u8>) -> Result<Seen, AllocError>
        requires shown { shown.items ≡ shown_of line.now }
        requires secret { IsTrue (has_secret line.now) }
        ensures { IfOk result (IsSeen line.now url.now) }
    {
        match parse(alloc, BStr::new(shown.as_slice())) {
            Ok(other) => Ok(Seen::of_location(
                line,
                url,
                OtherLine {
                    line: shown,
                    url: other,
                },
            )),
            Err(error) => Seen::of_error(shown, error),
        }
    }

    /// The way to show a line, if its shown text is read as another location.
    fn of_location(line: &[u8], url: &Url, other: OtherLine) -> Seen
        requires shown { other.line.items ≡ shown_of line.now }
        requires spelled { Spells (shown_of line.now) other.url }
        requires secret { IsTrue (has_secret line.now) }
        ensures { IsSeen line.now url.now result }
    {
        if has_same_verdicts(url, &other.url) && has_same_parts(line, other.line.as_slice()) {
            return Seen::Other(other);
        }
        drop(other);
        Seen::Withheld
    }

    /// The way to show a line whose shown text is refused. An error means that memory was refused.
    fn of_error(shown: Vec<u8>, error: Error) -> Result<Seen, AllocError>
        ensures { (line : List ℕ) (v : Location) → IsTrue (has_secret line) → IfOk result (IsSeen line v) }
    {
        drop(shown);
        let is_memory = matches!(&error, Error::Memory);
        drop(error);
        if is_memory {
            return Err(AllocError);
        }
        Ok(Seen::Withheld)
    }

    /// Returns the line and the location to report in place of these, or `None` if they are withheld.
    pub fn shown<'b>(
        &'b self,
        line: MarkedLine<'b>,
        url: &'b Url,
    ) -> Option<(MarkedLine<'b>, &'b Url)>
        ensures { option_map (λ it. (it.0.bytes.now, it.1.now)) result ≡ shown_as line.entry.bytes.now url.now self.now }
    {
        match self {
            Seen::Line => Some((line, url)),
            Seen::Other(other) => Some((MarkedLine::of(other.line.as_slice()), &other.url)),
            Seen::Withheld => None,
        }
    }
}

/// Whether both are settled or neither is, and Git is known to read the same in both or in neither.
fn has_same_verdicts(url: &Url, other: &Url) -> bool
    ensures { IsTrue result → HaveSameVerdicts url.now other.now }
{
    url.is_settled() == other.is_settled() && url.agrees_with_git() == other.agrees_with_git()
}

/// Whether the shown text of a line is the line, with `redacted` in place of its password if it has one.
fn is_around_password(line: &[u8], shown: &[u8]) -> bool
    requires { shown.now ≡ shown_of line.now }
    ensures { IsTrue result → IsShownAround line.now }
{
    match password_of(line) {
        None => is_same(line, shown),
        Some(span) => is_around(line, span, shown),
    }
}

/// The span of the password of a line, if it has one.
fn password_of(line: &[u8]) -> Option<Span> {
    match parts_of(line) {
        Ok(parts) => parts.password,
        Err(_) => None,
    }
}

/// Whether the shown text of a line is the line, with `redacted` in place of the password at this span.
fn is_around(line: &[u8], span: Span, shown: &[u8]) -> bool
    requires { shown.now ≡ shown_of line.now }
    ensures { IsTrue result → IsShownAround line.now }
{
    let (front, suffix) = line.split_at(span.at.min(line.len()));
    let (password, rest) = suffix.split_at(span.len.min(suffix.len()));
    is_joined(shown, front, word_for(password), rest)
}

/// Whether a text is the concatenation of these three.
fn is_joined(text: &[u8], front: &[u8], word: &[u8], rest: &[u8]) -> bool
    ensures { IsTrue result → text.now ≡ front.now ++ (word.now ++ rest.now) }
{
    let (head, suffix) = text.split_at(front.len().min(text.len()));
    is_same(head, front) && is_both(suffix, word, rest)
}

/// Whether a text is the concatenation of these two.
fn is_both(text: &[u8], word: &[u8], rest: &[u8]) -> bool
    ensures { IsTrue result → text.now ≡ word.now ++ rest.now }
{
    let (head, suffix) = text.split_at(word.len().min(text.len()));
    is_same(head, word) && is_same(suffix, rest)
}

/// Whether the shown text of this line has the same parts as the line.
fn has_same_parts(line: &[u8], other: &[u8]) -> bool {
    match (parts_of(line), parts_of(other)) {
        (Ok(parts), Ok(others)) => are_moved(line, &parts, &others),
        _ => false,
    }
}

/// Whether each part is at its place in the shown text of the line.
fn are_moved(line: &[u8], parts: &Parts, others: &Parts) -> bool {
    parts.form == others.form
        && is_moved(line, parts.scheme, others.scheme)
        && is_moved(line, parts.user, others.user)
        && is_moved(line, parts.password, others.password)
        && is_moved(line, parts.host, others.host)
        && is_moved(line, parts.port, others.port)
        && is_moved(line, Some(parts.path), Some(others.path))
}
