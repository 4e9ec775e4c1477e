//! The findings about a text that Git uses as a remote, each with its words.

ghost use Rattle.std.specs.Prelude.{◌≡◌, ◌↔◌, ◌++◌, ◌∷◌, [], IsTrue, OnOk, option_map};
ghost use Rattle.explain_audit.specs.Items.{LeadsAway, kinds};

use crate::kind::Kind;
use bstr::BStr;
use explain_report::location_report::{Report, reading_of_git};
use explain_report::refusal::Refusal;
use explain_report::text::marked::MarkedLine;
use explain_report::text::seen::Seen;
use git_audit::danger::{Danger, dangers};
use git_rules::rewrite::host::names_same_host;
use gix_url::parse::parse;
use gix_url::{Error, Url};
use std::alloc::{AllocError, Global};
use std::fmt::Write;

/// A finding.
#[derive(Drop)]
pub struct Item {
    /// The kind of the finding.
    pub kind: Kind,
    /// The finding in words, which contain no secret.
    pub words: String,
}

/// Appends a finding, in the words of its kind.
pub fn add(alloc: Global, found: &mut Vec<Item>, kind: Kind) -> Result<(), AllocError>
    ensures { OnOk result (kinds found.new.items ≡ kinds found.old.items ++ kind ∷ []) }
{
    let words = kind.words(alloc)?;
    found.push(Item { kind, words })?;
    Ok(())
}

/// Appends the findings about a text that is used as a remote: those about its location, or its refusal. If a parent is
/// given, a location on another host than the parent's is a finding.
pub fn add_text(
    alloc: Global,
    found: &mut Vec<Item>,
    text: &[u8],
    parent: Option<&Url>,
) -> Result<(), AllocError> {
    let read = parse(alloc, BStr::new(text));
    let added = match &read {
        Ok(url) => add_location(alloc, found, text, url, parent),
        Err(error) => add_error(alloc, found, error),
    };
    drop(read);
    added
}

/// Appends the findings about a text that is read as this location.
fn add_location(
    alloc: Global,
    found: &mut Vec<Item>,
    text: &[u8],
    url: &Url,
    parent: Option<&Url>,
) -> Result<(), AllocError> {
    if leads_away(parent, url) {
        add(alloc, found, Kind::ParentHost)?;
    }
    let of_text = dangers(alloc, text, &url.as_ref())?;
    let added = add_dangers(alloc, found, of_text.as_slice());
    drop(of_text);
    added?;
    add_reading(alloc, found, text, url)
}

/// Whether there is a parent, and the location names another host.
fn leads_away(parent: Option<&Url>, url: &Url) -> bool
    ensures { IsTrue result ↔ LeadsAway (option_map (λ p. p.now) parent.entry) url.now }
{
    match parent {
        None => false,
        Some(parent) => !names_same_host(&parent.as_ref(), &url.as_ref()),
    }
}

/// Appends dangers.
pub fn add_dangers(
    alloc: Global,
    found: &mut Vec<Item>,
    dangers: &[Danger],
) -> Result<(), AllocError> {
    for danger in dangers {
        add(alloc, found, Kind::Danger(*danger))?;
    }
    Ok(())
}

/// Appends the findings that a location isn't settled, and that Git isn't known to read the same in its text, each if
/// it is true. The words are about the text as it is shown.
pub fn add_reading(
    alloc: Global,
    found: &mut Vec<Item>,
    text: &[u8],
    url: &Url,
) -> Result<(), AllocError> {
    if url.is_settled() && url.agrees_with_git() {
        return Ok(());
    }
    let line = MarkedLine::of(text);
    let seen = Seen::of(alloc, line, url)?;
    let added = match seen.shown(line, url) {
        Some((_, shown)) => add_report_of(alloc, found, shown),
        None => add_withheld(alloc, found, url),
    };
    drop(seen);
    added
}

/// Appends the findings about the reading of a location's text, from its report.
fn add_report_of(alloc: Global, found: &mut Vec<Item>, url: &Url) -> Result<(), AllocError> {
    let report = Report::of(alloc, url)?;
    let added = add_report(alloc, found, url, &report);
    drop(report);
    added
}

/// Appends the findings about the reading of a location's text that is withheld.
fn add_withheld(alloc: Global, found: &mut Vec<Item>, url: &Url) -> Result<(), AllocError> {
    if !url.is_settled() {
        add(alloc, found, Kind::Unsettled)?;
    }
    if !url.agrees_with_git() {
        add(alloc, found, Kind::GitDiffers)?;
    }
    Ok(())
}

/// Appends the findings about the reading of a location's text, from this report.
pub fn add_report(
    alloc: Global,
    found: &mut Vec<Item>,
    url: &Url,
    report: &Report<'_>,
) -> Result<(), AllocError> {
    if let Some(reread) = &report.reread {
        add_words(
            alloc,
            found,
            Kind::Unsettled,
            "it is not settled: ",
            reread.words.as_str(),
        )?;
    }
    if !report.agrees_with_git {
        add_words(
            alloc,
            found,
            Kind::GitDiffers,
            "Git ",
            reading_of_git(url, report),
        )?;
    }
    Ok(())
}

/// Appends the finding that a text is refused. An error means that memory was refused.
fn add_error(alloc: Global, found: &mut Vec<Item>, error: &Error) -> Result<(), AllocError> {
    if let Error::Memory = error {
        return Err(AllocError);
    }
    let refusal = Refusal::of_line(alloc, error)?;
    let added = add_refusal(alloc, found, &refusal);
    drop(refusal);
    added
}

/// Appends the finding that a text is refused.
pub fn add_refusal(
    alloc: Global,
    found: &mut Vec<Item>,
    refusal: &Refusal,
) -> Result<(), AllocError> {
    add_words(alloc, found, Kind::NoLocation, "", refusal.words.as_str())
}

/// Appends a finding, with words in two parts.
pub fn add_words(
    alloc: Global,
    found: &mut Vec<Item>,
    kind: Kind,
    front: &str,
    rest: &str,
) -> Result<(), AllocError>
    ensures { OnOk result (kinds found.new.items ≡ kinds found.old.items ++ kind ∷ []) }
{
    let mut words = String::new(alloc);
    write!(words, "{front}{rest}")?;
    found.push(Item { kind, words })?;
    Ok(())
}
