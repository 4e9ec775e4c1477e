//! Other readings of a line: the first condition for a common reading that its location doesn't meet, the other hosts
//! that groups of readers take from the line, and a URL of the same place that fewer programs read differently.
//!
//! A host that doesn't occur in a shown part of the line is reported as `redacted`.

ghost use Rattle.std.specs.Prelude.{◌≡◌, ◌↔◌, IfOk, IfSome, IsNone, IsTrue, None, false, string_bytes};
ghost use Rattle.explain_report.specs.Reasons.{HasReason};
ghost use Rattle.git_readers.specs.Conditions.{IsUnambiguous};
ghost use Rattle.explain_report.specs.Secrets.{has_secret};

mod condition;
mod git_host;
mod instead;
mod taken;

use crate::memory::both;
use crate::readers::git_host::GitHost;
use crate::readers::instead::url_instead;
use crate::readers::taken::{Taken, beside_host, beside_location, has, is_none};
use crate::text::line::Quoted;
use crate::text::lossy;
use crate::text::marked::MarkedLine;
use crate::text::secret::part_of_shown;
use bstr::BString;
use git_audit::danger::Danger;
use gix_url::Url;
use gix_url::unambiguous::Condition;
use serde::Serialize;
use std::alloc::{AllocError, Global};
use std::fmt::Write;

/// Other readings of a line.
#[derive(Drop, Serialize)]
pub struct Readers {
    /// The name of the first condition that the location doesn't meet. A refused line has none, nor has a location
    /// that meets all of them.
    pub condition: Option<&'static str>,
    /// The condition in words.
    #[serde(skip)]
    pub words: &'static str,
    /// The other hosts that groups of readers take from the line.
    pub others: Vec<OtherHost>,
    /// A URL of the same place that fewer programs read differently.
    pub instead: Option<String>,
}

/// A host other than that of the location, or for a refused line other than the one that Git connects to.
#[derive(Drop, Serialize)]
pub struct OtherHost {
    pub host: String,
    /// The names of the groups of readers that take it.
    pub groups: Vec<&'static str>,
    /// The host, byte for byte.
    #[serde(skip)]
    pub bytes: BString,
    /// The words before the host: the location's host, and the readers that take this one.
    #[serde(skip)]
    pub words: String,
}

impl Readers {
    /// Returns the other readings of a line that is read as this location, whose host is shown as `host`. These are all
    /// dangers of the line: without [`Danger::MisreadHost`] no group takes another host.
    pub fn of_location(
        alloc: Global,
        line: MarkedLine<'_>,
        url: &Url,
        dangers: &[Danger],
        host: Option<&str>,
    ) -> Result<Option<Readers>, AllocError>
        ensures none { IfOk result (λ readers. IsNone readers → IsUnambiguous url.now) }
        ensures some { IfOk result (λ readers. IfSome readers HasReason) }
        ensures instead { IfOk result (λ readers. IfSome readers (λ it.
            IfSome it.instead (λ text. has_secret (string_bytes text) ≡ false))) }
    {
        let others = if dangers.iter().any(is_misread_host) {
            others_of_location(alloc, line.bytes, url, host)?
        } else {
            Vec::new(alloc)
        };
        match url.unmet_condition() {
            Some(unmet) => {
                let (others, instead) = both(others, url_instead(alloc, line, url))?;
                Ok(Some(Readers::with_condition(unmet, others, instead)))
            }
            None => Ok(of_others(others)),
        }
    }

    /// Returns the readings of a refused line with a host other than the one that Git connects to.
    pub fn of_refused(alloc: Global, line: &[u8]) -> Result<Option<Readers>, AllocError> {
        let git = GitHost::in_line(alloc, line)?;
        let others = others_of_refused(alloc, line, &git);
        drop(git);
        Ok(of_others(others?))
    }

    /// The report of a location that doesn't meet the condition.
    fn with_condition(unmet: Condition, others: Vec<OtherHost>, instead: Option<String>) -> Readers
        ensures instead { result.instead ≡ instead }
        ensures reason { HasReason result }
    {
        Readers {
            condition: Some(condition::name(unmet)),
            words: condition::words(unmet),
            others,
            instead,
        }
    }
}

/// Whether the danger is that some group takes another host.
fn is_misread_host(danger: &Danger) -> bool
    ensures { IsTrue result ↔ (danger.now ≡ Danger.MisreadHost) }
{
    matches!(danger, Danger::MisreadHost)
}

/// Returns the URL of the same place that fewer programs read differently, if one is reported.
pub fn instead_of(readers: Option<&Readers>) -> Option<&str> {
    match readers {
        None => None,
        Some(found) => found.instead.as_deref(),
    }
}

/// The report without a condition, or `None` if there is no other host.
fn of_others(others: Vec<OtherHost>) -> Option<Readers>
    ensures instead { IfSome result (λ it. it.instead ≡ None) }
    ensures reason { IfSome result HasReason }
{
    if others.is_empty() {
        drop(others);
        return None;
    }
    Some(Readers {
        condition: None,
        words: "",
        others,
        instead: None,
    })
}

/// The other hosts that groups take from a line that is read as this location.
fn others_of_location(
    alloc: Global,
    line: &[u8],
    url: &Url,
    host: Option<&str>,
) -> Result<Vec<OtherHost>, AllocError> {
    let location = url.as_ref();
    let found = beside_location(line, &location);
    if is_none(found.as_slice()) {
        return Ok(Vec::new(alloc));
    }
    let own = own_words(alloc, line, url.host(), host)?;
    let others = listed(alloc, own.as_str(), found.as_slice(), line);
    drop(own);
    others
}

/// The other hosts that groups take from a refused line for which Git connects to this host.
fn others_of_refused(
    alloc: Global,
    line: &[u8],
    git: &GitHost,
) -> Result<Vec<OtherHost>, AllocError> {
    match git {
        GitHost::Unknown => Ok(Vec::new(alloc)),
        GitHost::Local => others_beside(alloc, line, None),
        GitHost::Named(host) => others_beside(alloc, line, Some(host.as_bytes())),
    }
}

/// The other hosts that groups take from a line for which Git connects to this host, or to none.
fn others_beside(
    alloc: Global,
    line: &[u8],
    host: Option<&[u8]>,
) -> Result<Vec<OtherHost>, AllocError> {
    let found = beside_host(line, host);
    if is_none(found.as_slice()) {
        return Ok(Vec::new(alloc));
    }
    let own = git_words(alloc, host, line)?;
    let others = listed(alloc, own.as_str(), found.as_slice(), line);
    drop(own);
    others
}

/// The hosts that groups take from a line, each once and in the order of the groups.
fn listed(
    alloc: Global,
    own: &str,
    found: &[Taken<'_>],
    line: &[u8],
) -> Result<Vec<OtherHost>, AllocError> {
    let mut others: Vec<OtherHost> = Vec::new(alloc);
    for (at, it) in found.iter().enumerate() {
        if let Some(host) = it.host {
            if !has(before(found, at), host) {
                others.push(OtherHost::of(alloc, own, found, host, line)?)?;
            }
        }
    }
    Ok(others)
}

/// The groups before an index.
fn before<'b, 'a>(found: &'b [Taken<'a>], at: usize) -> &'b [Taken<'a>] {
    found.split_at(at.min(found.len())).0
}

impl OtherHost {
    /// The report of a host that some of these groups take from a line. `own` is the words for the location's host.
    fn of(
        alloc: Global,
        own: &str,
        found: &[Taken<'_>],
        host: &[u8],
        line: &[u8],
    ) -> Result<OtherHost, AllocError> {
        let shown = part_of_shown(line, host);
        let words = both(
            names_of(alloc, found, host)?,
            words_of(alloc, own, found, host),
        )?;
        let texts = both(words, lossy(alloc, shown))?;
        let (((groups, words), host), bytes) = both(texts, BString::from_slice(alloc, shown))?;
        Ok(OtherHost {
            host,
            groups,
            bytes,
            words,
        })
    }
}

/// The names of the groups that take this host.
fn names_of(
    alloc: Global,
    found: &[Taken<'_>],
    host: &[u8],
) -> Result<Vec<&'static str>, AllocError> {
    let mut names = Vec::new(alloc);
    for it in found {
        if it.has(host) {
            names.push(it.group.name())?;
        }
    }
    Ok(names)
}

// ---- words

/// The words before the host that these groups take: those for the location's own host, and the readers.
fn words_of(
    alloc: Global,
    own: &str,
    found: &[Taken<'_>],
    host: &[u8],
) -> Result<String, AllocError> {
    let mut words = String::from_str(alloc, own)?;
    let written = push_readers(&mut words, found, host);
    let (words, ()) = both(words, written)?;
    Ok(words)
}

/// Appends the readers of the groups that take this host.
fn push_readers(out: &mut String, found: &[Taken<'_>], host: &[u8]) -> Result<(), AllocError> {
    let mut is_first = true;
    for it in found {
        if it.has(host) {
            out.push_str(if is_first { "; " } else { ", and " })?;
            out.push_str(it.group.words())?;
            is_first = false;
        }
    }
    out.push_str(", take")
}

/// The host of the location in words, as it is shown: Git connects to it if Git reads this host in the line.
fn own_words(
    alloc: Global,
    line: &[u8],
    host: Option<&str>,
    shown: Option<&str>,
) -> Result<String, AllocError> {
    let git = GitHost::in_line(alloc, line)?;
    let is_of_git = git.is_host(host);
    drop(git);
    let mut words = String::new(alloc);
    let written = push_own(&mut words, shown, is_of_git);
    let (words, ()) = both(words, written)?;
    Ok(words)
}

/// Appends the host of a location, and whether Git connects to it.
fn push_own(out: &mut String, host: Option<&str>, is_of_git: bool) -> Result<(), AllocError> {
    match host {
        None if is_of_git => push_git(out, None),
        None => out.push_str("it has no host here"),
        Some(host) if is_of_git => push_git(out, Some(host.as_bytes())),
        Some(host) => {
            let host = Quoted(host.as_bytes());
            write!(out, "the host here is {host}")
        }
    }
}

/// The host that Git connects to for a line, in words and as it is shown.
fn git_words(alloc: Global, host: Option<&[u8]>, line: &[u8]) -> Result<String, AllocError> {
    let mut words = String::new(alloc);
    let written = match host {
        None => push_git(&mut words, None),
        Some(host) => push_git(&mut words, Some(part_of_shown(line, host))),
    };
    let (words, ()) = both(words, written)?;
    Ok(words)
}

/// Appends the host that Git connects to.
fn push_git(out: &mut String, host: Option<&[u8]>) -> Result<(), AllocError> {
    match host {
        None => out.push_str("Git opens a local path"),
        Some(host) => {
            let host = Quoted(host);
            write!(out, "Git connects to {host}")
        }
    }
}
