//! The findings about one entry of a file of submodules, independent of the other entries.

ghost use Rattle.std.specs.Prelude.{◌≡◌, IfOk, OnOk};
ghost use Rattle.std.specs.List.{filter};
ghost use Rattle.git_modules.specs.SubmoduleRisks.{has_risk};
ghost use Rattle.explain_audit.specs.Entries.{all_risks, with_reason};
ghost use Rattle.explain_audit.specs.Items.{kinds};

use crate::item::{Item, add};
use crate::kind::Kind;
use crate::url::{Parent, add_url};
use git_modules::submodules::refusal::{Refusals, Refused, check};
use git_modules::submodules::risk::{Risk, has_risk};
use git_modules::submodules::submodules;
use git_rules::config::Entry;
use std::alloc::{AllocError, Global};

/// The way to audit the URL of an entry.
#[derive(Clone, Copy)]
pub enum Reading<'a> {
    /// As the URL in a file. A relative URL is resolved against the superproject's, if that is given.
    File(Option<Parent<'a>>),
    /// Not at all: a configuration decides which text Git uses.
    Configuration,
}

/// The findings about an entry, and the submodule of the entry.
#[derive(Drop)]
pub struct Audited<'a> {
    /// The name of the submodule, or `None` if the entry isn't one of a submodule or Git refuses the name.
    pub name: Option<&'a [u8]>,
    /// The findings.
    pub items: Vec<Item>,
}

/// Returns the findings about an entry. `alone` is a list of this entry only.
pub fn audit<'a>(
    alloc: Global,
    entry: &Entry<'a>,
    alone: &[Entry<'a>],
    reading: Reading<'_>,
) -> Result<Audited<'a>, AllocError> {
    let mut items = Vec::new(alloc);
    add_refusals(alloc, &mut items, check(entry))?;
    for risk in &risks_of(alloc, entry)? {
        add(alloc, &mut items, Kind::Risk(*risk))?;
    }
    let name = add_urls(alloc, &mut items, alone, reading)?;
    Ok(Audited { name, items })
}

/// Appends the reasons for which Git's fsck refuses an entry: first that of its name, then that of its value.
fn add_refusals(alloc: Global, found: &mut Vec<Item>, refusals: Refusals) -> Result<(), AllocError>
    ensures { OnOk result (kinds found.new.items
        ≡ with_reason (with_reason (kinds found.old.items) refusals.name) refusals.value) }
{
    add_reason(alloc, found, refusals.name)?;
    add_reason(alloc, found, refusals.value)
}

/// Appends this reason of fsck, if there is one.
fn add_reason(
    alloc: Global,
    found: &mut Vec<Item>,
    reason: Option<Refused>,
) -> Result<(), AllocError>
    ensures { OnOk result (kinds found.new.items ≡ with_reason (kinds found.old.items) reason) }
{
    match reason {
        None => Ok(()),
        Some(refused) => add(alloc, found, Kind::Fsck(refused)),
    }
}

/// The risks of an entry, in their order.
fn risks_of(alloc: Global, entry: &Entry<'_>) -> Result<Vec<Risk>, AllocError>
    ensures { IfOk result (λ found. found.items ≡ filter (λ risk. has_risk risk entry.now) all_risks) }
{
    let all = [
        Risk::AbsolutePath,
        Risk::PathUpwards,
        Risk::PathIntoGit,
        Risk::OptionAsBranch,
        Risk::OptionAsUpdate,
        Risk::ControlCharacter,
        Risk::NoValue,
    ];
    all.iter()
        .copied()
        .filter(|risk| has_risk(entry, *risk))
        .collect(alloc)
}

/// Appends the findings about the URL in the entries, and returns the name of their submodule. Git uses no URL that
/// looks like an option, and no entry whose name it refuses: fsck refuses both.
fn add_urls<'a>(
    alloc: Global,
    found: &mut Vec<Item>,
    alone: &[Entry<'a>],
    reading: Reading<'_>,
) -> Result<Option<&'a [u8]>, AllocError> {
    let mut name = None;
    for submodule in &submodules(alloc, alone)? {
        name = Some(submodule.name);
        if let (Some(url), Reading::File(parent)) = (submodule.url, reading) {
            add_url(alloc, found, url.value, parent)?;
        }
    }
    Ok(name)
}
