//! The report of a location: its form, its parts, the meaning of its path, and its uses.
//!
//! A password is reported as `redacted`, and no reported text contains it. Bytes that aren't UTF-8 are reported as
//! U+FFFD.

ghost use Rattle.std.specs.Prelude.{◌≡◌, ◌↔◌, IfOk, IsSome, IsTrue, None, codes, option_map};
ghost use Rattle.gix_url.specs.GitClass.{AgreesWithGit};
ghost use Rattle.gix_url.specs.Display.{hidden_password};
ghost use Rattle.gix_url.specs.Settled.{IsSettled};
ghost use Rattle.explain_report.specs.Facts.{AreFactsOf};
ghost use Rattle.explain_report.specs.Reports.{ReportsAgain, WithholdsPlace, safety_of};

use crate::credential::Credential;
use crate::curl::Curl;
use crate::difference::Reread;
use crate::facts::Facts;
use crate::form::Form;
use crate::git_report::{GitReads, PASSED_ON, is_of_web};
use crate::memory::both;
use crate::path::{Components, Home, Meaning};
use crate::text::lossy;
use bstr::{BString, ByteSlice};
use gix_url::{ArgumentSafety, Url, WriteFault};
use serde::Serialize;
use std::alloc::{AllocError, Global};
use std::borrow::CowStr;

/// The report of a location.
#[derive(Drop, Serialize)]
pub struct Report<'a> {
    /// The form in which the location is written.
    pub form: Form,
    /// The name of the scheme, or of the remote helper.
    pub scheme: &'a str,
    /// The user.
    pub user: Option<&'a str>,
    /// `redacted` if the location has a password.
    pub password: Option<&'static str>,
    /// The host.
    pub host: Option<&'a str>,
    /// The port.
    pub port: Option<u16>,
    /// The port, or the default port of the scheme.
    pub port_or_default: Option<u16>,
    /// The path, decoded.
    pub path: CowStr<'a>,
    /// Whether the path is UTF-8, so that it is reported byte for byte.
    pub path_is_utf8: bool,
    /// The path as it was written, with its escapes.
    pub original_path: CowStr<'a>,
    /// Path, query and fragment.
    pub components: Components<'a>,
    /// The home folder in which the path begins, on the server of Secure Shell or `git://`.
    pub home: Option<Home>,
    /// The path for a shell, if it is one in a file system.
    pub shell_path: Option<String>,
    /// The path for a shell, byte for byte.
    #[serde(skip)]
    pub shell_bytes: Option<BString>,
    /// Whether the parts are safe as arguments of a command.
    pub arguments: Arguments,
    /// The text, with `redacted` in place of the field `password`.
    pub text: Option<String>,
    /// The text byte for byte, unless it contains a password.
    #[serde(skip)]
    pub own_text: Option<BString>,
    /// Whether the location's text is read as the location again.
    pub settled: bool,
    /// Whether Git, and for HTTP curl too, is known to read the same protocol, user, host, port and path in the
    /// location's text.
    pub agrees_with_git: bool,
    /// How Git reads the location's text if it isn't known to read the same, or why it may read another place.
    pub git_reads: Option<GitReads>,
    /// The request of Git's credential code to helpers for the text of a location of HTTP, unless Git refuses the text.
    pub credential: Option<Credential>,
    /// The host and the path that curl uses for the text of a location of HTTP, unless curl refuses the text.
    pub curl: Option<Curl>,
    /// How the location's text is read, if the location isn't settled.
    pub reread: Option<Reread>,
}

/// The safety of the parts of a location as arguments of a command.
#[derive(Clone, Copy, Serialize)]
pub struct Arguments {
    pub user: Safety,
    pub host: Safety,
    pub path: Safety,
}

/// The safety of a part of a location as an argument of a command.
#[derive(Clone, Copy, Serialize)]
#[serde(rename_all = "snake_case")]
pub enum Safety {
    /// The location has no such part.
    Absent,
    /// The part can't be taken for an option.
    Usable,
    /// The part begins with `-`.
    Dangerous,
    /// A path that doesn't begin with `/`, or that has a `-` after it.
    Withheld,
}

impl<'a> Report<'a> {
    /// Returns the report of this location.
    pub fn of(alloc: Global, url: &'a Url) -> Result<Report<'a>, AllocError>
        ensures hidden { IfOk result (λ report. option_map (λ word. word.now) report.password
            ≡ option_map (λ _. codes "redacted") url.now.password) }
        ensures settled { IfOk result (λ report. IsTrue report.settled ↔ IsSettled url.now) }
        ensures agrees { IfOk result (λ report. IsTrue report.agrees_with_git ↔ AgreesWithGit url.now) }
        ensures withheld { IfOk result (λ report. IsSome url.now.password → report.own_text ≡ None) }
        ensures git { IfOk result (λ report. WithholdsPlace url.now report.git_reads) }
        ensures reread { IfOk result (λ report. ReportsAgain url.now report.reread) }
    {
        let facts = Facts::of(alloc, url)?;
        match Found::of(alloc, url, &facts) {
            Ok(found) => Ok(Report::of_facts(url, facts, found)),
            Err(error) => {
                drop(facts);
                Err(error)
            }
        }
    }

    /// The report of this location, of its facts and its findings.
    fn of_facts(url: &'a Url, facts: Facts, found: Found<'a>) -> Report<'a>
        ensures hidden { option_map (λ word. word.now) result.password
            ≡ option_map (λ _. codes "redacted") url.now.password }
        ensures settled { result.settled ≡ facts.is_settled }
        ensures agrees { result.agrees_with_git ≡ facts.agrees_with_git }
        ensures withheld { IsSome url.now.password → result.own_text ≡ None }
        ensures git { result.git_reads ≡ found.entry.git_reads }
        ensures reread { result.reread ≡ found.entry.reread }
    {
        let (texts, meaning, (credential, curl)) = (found.texts, found.meaning, found.over_web);
        Report {
            form: Form::of(url),
            scheme: url.scheme.as_str(),
            user: url.user(),
            password: hidden_password(url),
            host: url.host(),
            port: url.port,
            port_or_default: url.port_or_default(),
            path: texts.path,
            path_is_utf8: url.path.as_bytes().to_str().is_ok(),
            original_path: texts.original_path,
            components: meaning.components,
            home: meaning.home,
            shell_path: meaning.shell_path,
            shell_bytes: meaning.shell_bytes,
            arguments: arguments_of(url),
            text: texts.text,
            own_text: without_password(url, facts.text),
            settled: facts.is_settled,
            agrees_with_git: facts.agrees_with_git,
            git_reads: found.git_reads,
            credential,
            curl,
            reread: found.reread,
        }
    }
}

/// The location's text, unless it contains a password.
fn without_password(url: &Url, text: Result<BString, WriteFault>) -> Option<BString>
    ensures { IsSome url.now.password → result ≡ None }
{
    if url.password().is_some() {
        drop(text);
        return None;
    }
    text.ok()
}

/// The findings about a location with its facts.
#[derive(Drop)]
struct Found<'a> {
    texts: Texts<'a>,
    meaning: Meaning<'a>,
    git_reads: Option<GitReads>,
    /// The readings of Git's credential code and of curl.
    over_web: (Option<Credential>, Option<Curl>),
    reread: Option<Reread>,
}

impl<'a> Found<'a> {
    /// The findings about this location, which has these facts.
    fn of(alloc: Global, url: &'a Url, facts: &Facts) -> Result<Found<'a>, AllocError>
        requires { AreFactsOf url.now facts.now }
        ensures git { IfOk result (λ found. WithholdsPlace url.now found.git_reads) }
        ensures reread { IfOk result (λ found. ReportsAgain url.now found.reread) }
    {
        let found = both(Texts::of(alloc, url, facts)?, Meaning::of(alloc, url))?;
        let found = both(found, GitReads::of(alloc, url, facts))?;
        let found = both(found, over_web(alloc, url, facts))?;
        let ((((texts, meaning), git_reads), over_web), reread) = both(
            found,
            Reread::of(alloc, url, facts),
        )?;
        Ok(Found {
            texts,
            meaning,
            git_reads,
            over_web,
            reread,
        })
    }
}

/// How Git's credential code and curl read the text of a location of HTTP, if it has a text.
fn over_web(
    alloc: Global,
    url: &Url,
    facts: &Facts,
) -> Result<(Option<Credential>, Option<Curl>), AllocError> {
    match &facts.text {
        Ok(text) if is_of_web(url) => both(
            Credential::in_text(alloc, text.as_bytes())?,
            Curl::in_text(alloc, text.as_bytes()),
        ),
        _ => Ok((None, None)),
    }
}

/// The texts in the report of a location.
#[derive(Drop)]
struct Texts<'a> {
    path: CowStr<'a>,
    original_path: CowStr<'a>,
    text: Option<String>,
}

impl<'a> Texts<'a> {
    /// The texts of this location.
    fn of(alloc: Global, url: &'a Url, facts: &Facts) -> Result<Texts<'a>, AllocError> {
        let path = url.path.as_bytes().to_str_lossy(alloc)?;
        let original = url.original_path().as_bytes().to_str_lossy(alloc);
        let ((path, original_path), text) = both(
            both(path, original)?,
            shown_text(alloc, url, facts),
        )?;
        Ok(Texts {
            path,
            original_path,
            text,
        })
    }
}

/// The text of the location with its password hidden, if it has a text.
fn shown_text(alloc: Global, url: &Url, facts: &Facts) -> Result<Option<String>, AllocError> {
    match &facts.text {
        Err(_) => Ok(None),
        Ok(_) if url.password().is_some() => Ok(Some(url.to_string(alloc)?)),
        Ok(text) => Ok(Some(lossy(alloc, text.as_bytes())?)),
    }
}

/// Returns how Git reads the text of the location, in words.
pub fn reading_of_git<'b>(url: &Url, report: &'b Report<'_>) -> &'b str {
    match &report.git_reads {
        _ if report.agrees_with_git && is_of_web(url) => "reads the same in its text, as curl does",
        _ if report.agrees_with_git => "reads the same in its text",
        Some(reads) => reads.words.as_str(),
        None => PASSED_ON,
    }
}

/// `redacted`, if the location has a password.
pub(crate) fn hidden_password(url: &Url) -> Option<&'static str>
    ensures { option_map (λ word. word.now) result ≡ hidden_password url.now.password }
{
    url.password().map(|_| "redacted")
}

/// The safety of the location's parts as arguments of a command.
fn arguments_of(url: &Url) -> Arguments {
    Arguments {
        user: safety_of(url.user_as_argument()),
        host: safety_of(url.host_as_argument()),
        path: match url.path_argument_safe() {
            Some(_) => Safety::Usable,
            None => Safety::Withheld,
        },
    }
}

/// The safety of a user or a host, as a word.
fn safety_of(judged: ArgumentSafety<'_>) -> Safety
    ensures { result ≡ safety_of judged.entry }
{
    match judged {
        ArgumentSafety::Absent => Safety::Absent,
        ArgumentSafety::Usable(_) => Safety::Usable,
        ArgumentSafety::Dangerous(_) => Safety::Dangerous,
    }
}
