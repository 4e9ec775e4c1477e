//! The reason why a line, or the text of a location, is refused: its name, its words, and its span in a line.

ghost use Rattle.std.specs.Prelude.{◌≡◌, ◌≢◌, ℕ, IfOk, List};
ghost use Rattle.gix_url.specs.Flaws.{Flaw};
ghost use Rattle.explain_report.specs.Refusals.{ReportsRefusal};
ghost use Rattle.explain_report.specs.Reports.{WithholdsSecret};

use crate::git_report::GitReads;
use crate::memory::both;
use gix_url::parse::UrlKind;
use gix_url::{Error, UrlFault, WriteFault};
use serde::Serialize;
use std::alloc::{AllocError, Global};

/// A refusal.
#[derive(Drop, Serialize)]
pub struct Refusal {
    /// The name of the error.
    pub error: &'static str,
    /// The form for which the text was taken, if the error reports it.
    pub kind: Option<&'static str>,
    /// The name of the fault, if the error reports one.
    pub fault: Option<&'static str>,
    /// The offset in the line of the first wrong byte, or at which something is missing. It is absent for a text that
    /// isn't a line.
    pub at: Option<usize>,
    /// The number of wrong bytes; 0 if something is missing.
    pub len: Option<usize>,
    /// The name of the reason for this span.
    pub reason: Option<&'static str>,
    /// The reason in words, which contain no part of the text.
    pub words: String,
    /// How Git reads the refused line, unless Git passes it to a remote helper, as for HTTP.
    pub git_reads: Option<GitReads>,
}

impl Refusal {
    /// Returns the refusal of an error.
    pub fn of(alloc: Global, error: &Error) -> Result<Refusal, AllocError> {
        Ok(Refusal::in_words(error, error.to_string(alloc)?))
    }

    /// Returns the refusal of a line that was parsed with this error, with the span and the words of its reason.
    pub fn of_line(alloc: Global, error: &Error) -> Result<Refusal, AllocError>
        ensures { (line : List ℕ) → error.now ≢ Error.Memory → Flaw line error.now
            → IfOk result (ReportsRefusal line) }
    {
        let Some(refusal) = error.refusal() else {
            return Refusal::of(alloc, error);
        };
        let words = String::from_str(alloc, refusal.reason.words())?;
        Ok(Refusal {
            at: Some(refusal.at),
            len: Some(refusal.len),
            reason: Some(refusal.reason.name()),
            ..Refusal::in_words(error, words)
        })
    }

    /// Returns the refusal of a line that was parsed with this error, and how Git reads the line.
    pub fn with_git(alloc: Global, line: &[u8], error: &Error) -> Result<Refusal, AllocError>
        ensures refusal { error.now ≢ Error.Memory → Flaw line.now error.now
            → IfOk result (ReportsRefusal line.now) }
        ensures git { IfOk result (λ it. WithholdsSecret line.now it.git_reads) }
    {
        let (refusal, git_reads) = both(
            Refusal::of_line(alloc, error)?,
            GitReads::in_refused(alloc, line),
        )?;
        Ok(Refusal {
            git_reads,
            ..refusal
        })
    }

    /// Returns the reason why nothing is reported of a line's location: the line isn't refused, but its parts may
    /// contain secrets.
    pub fn withheld(alloc: Global) -> Result<Refusal, AllocError> {
        Ok(Refusal {
            error: "Withheld",
            kind: None,
            fault: None,
            at: None,
            len: None,
            reason: None,
            words: String::from_str(alloc, "what it is read as may show a secret")?,
            git_reads: None,
        })
    }

    /// The refusal without a span, in these words.
    fn in_words(error: &Error, words: String) -> Refusal
        ensures { result.words ≡ words }
    {
        let (name, kind, fault) = names(error);
        Refusal {
            error: name,
            kind,
            fault,
            at: None,
            len: None,
            reason: None,
            words,
            git_reads: None,
        }
    }
}

/// The names of an error, of its form and of its fault.
fn names(error: &Error) -> (&'static str, Option<&'static str>, Option<&'static str>) {
    match error {
        Error::Memory => ("Memory", None, None),
        Error::EmptyLocal => ("EmptyLocal", None, None),
        Error::MissingPath { kind, .. } => ("MissingPath", Some(kind_name(*kind)), None),
        Error::NotUtf8 { kind, .. } => ("NotUtf8", Some(kind_name(*kind)), None),
        Error::TooLong { .. } => ("TooLong", None, None),
        Error::BadUrl { kind, fault, .. } => {
            ("BadUrl", Some(kind_name(*kind)), Some(url_fault(*fault)))
        }
        Error::HelperName { .. } => ("HelperName", None, None),
        Error::Unwritable(fault) => ("Unwritable", None, Some(write_fault(*fault))),
        Error::NoHome(_) => ("NoHome", None, None),
        Error::PathNotUtf8 => ("PathNotUtf8", None, None),
        Error::Unresolved => ("Unresolved", None, None),
    }
}

/// The name of a form in the reports.
fn kind_name(kind: UrlKind) -> &'static str {
    match kind {
        UrlKind::Url => "url",
        UrlKind::Scp => "scp",
        UrlKind::Local => "local",
    }
}

/// The name of a URL's fault.
fn url_fault(fault: UrlFault) -> &'static str {
    match fault {
        UrlFault::NoScheme => "NoScheme",
        UrlFault::BadPort => "BadPort",
        UrlFault::BadCharacter => "BadCharacter",
        UrlFault::HostRequired => "HostRequired",
    }
}

/// The name of the reason why a location has no text.
fn write_fault(fault: WriteFault) -> &'static str {
    match fault {
        WriteFault::HelperName => "HelperName",
        WriteFault::HelperParts => "HelperParts",
        WriteFault::RelativeSsh => "RelativeSsh",
        WriteFault::UserWithoutHost => "UserWithoutHost",
    }
}
