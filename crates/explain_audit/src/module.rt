//! The submodules of a file or a configuration: the values that Git uses, and the findings about them.

ghost use Rattle.std.specs.Prelude.{◌≡◌, IfOk, OnOk, option_map, string_bytes};
ghost use Rattle.bstr.specs.Owned.{bstring_bytes};
ghost use Rattle.explain_report.specs.Findings.{union};
ghost use Rattle.explain_report.specs.Secrets.{text_shown};
ghost use Rattle.explain_audit.specs.Kinds.{findings_of};

use crate::entry::{self, Audited, Reading};
use crate::item::{self, Item};
use crate::kind::{Kind, names_of};
use crate::place::columns_at;
use crate::url::{Parent, resolved};
use crate::whole::{index_of, kinds_of};
use bstr::BString;
use explain_report::finding::Findings;
use explain_report::rules::config::Config;
use explain_report::rules::route::Route;
use explain_report::rules::setting::Setting;
use explain_report::text::secret::{shown_part, shown_text};
use git_modules::config_file::flaw::FileError;
use git_modules::config_file::{FileEntry, entries};
use git_modules::submodules::defect::{Defects, defects_of};
use git_modules::submodules::{Submodule, Used, submodules};
use git_rules::config::Entry;
use serde::Serialize;
use std::alloc::{AllocError, Global};
use std::collections::BTreeMap;

/// A submodule, and the findings about it.
#[derive(Drop, Serialize)]
pub struct ModuleReport {
    /// Its name, or `None` for all entries whose name Git refuses. Here and in each text below, `redacted` is in place
    /// of possible secrets.
    pub submodule: Option<String>,
    /// The folder that Git uses, if it uses one.
    pub path: Option<String>,
    /// The URL that Git uses, if it uses one.
    pub url: Option<String>,
    /// The text to which a relative URL is resolved.
    pub resolved: Option<String>,
    /// The texts from which Git fetches it by a configuration.
    pub fetch: Vec<Route>,
    /// The method of updates.
    pub update: Option<String>,
    /// The branch for updates.
    pub branch: Option<String>,
    /// The names of the conditions for which a run may fail, and of the findings, each once.
    pub findings: Vec<&'static str>,
    /// The findings, and their places.
    pub places: Vec<Place>,
    /// The conditions for which a run may fail.
    #[serde(skip)]
    pub found: Findings,
}

/// A finding about an entry.
#[derive(Drop, Serialize)]
pub struct Place {
    /// The name of the finding.
    pub name: &'static str,
    /// The finding in words.
    pub words: String,
    /// The line of the entry, from 1, if it is in a file.
    pub line: Option<usize>,
    /// The column of the entry, from 1, if it is in a file.
    pub column: Option<usize>,
    /// The column after the end of the entry's line, if it is in a file.
    pub end_column: Option<usize>,
    /// The entry.
    pub entry: Setting,
    #[serde(skip)]
    pub kind: Kind,
}

/// Returns the submodules of a file with this text, in the order in which their names first occur, and the findings
/// about them.
///
/// # Errors
///
/// The error of the text, if it isn't a configuration. Also fails if memory is refused.
pub fn reports(
    alloc: Global,
    text: &[u8],
    parent: Option<Parent<'_>>,
) -> Result<Vec<ModuleReport>, FileError> {
    let mut buffer = vec![in alloc; 0u8; text.len()]?;
    let found = entries(alloc, text, buffer.as_mut_slice())?;
    Ok(reports_of(alloc, text, found.as_slice(), parent)?)
}

/// The submodules of the entries of a text.
fn reports_of(
    alloc: Global,
    text: &[u8],
    found: &[FileEntry<'_>],
    parent: Option<Parent<'_>>,
) -> Result<Vec<ModuleReport>, AllocError> {
    let plain = plain(alloc, found)?;
    let listed = submodules(alloc, plain.as_slice())?;
    let mut audit = Audit::of(alloc, listed.as_slice(), parent)?;
    for (index, (it, alone)) in found.iter().zip(plain.chunks(1)).enumerate() {
        let audited = entry::audit(alloc, &it.entry, alone, Reading::File(parent))?;
        audit.note_first(audited.name, index)?;
        audit.add(alloc, audited, &it.entry, Some((text, it.line)))?;
    }
    audit.add_defects(alloc, text, found, listed.as_slice())?;
    Ok(audit.reports)
}

/// The entries without their lines.
fn plain<'a>(alloc: Global, found: &[FileEntry<'a>]) -> Result<Vec<Entry<'a>>, AllocError> {
    let mut plain = Vec::with_capacity(alloc, found.len())?;
    for it in found {
        plain.push(it.entry.clone()?)?;
    }
    Ok(plain)
}

/// Returns the submodules of a configuration, in the order in which their names first occur, with the texts from which
/// Git fetches them, and the findings about them.
pub fn configured(
    alloc: Global,
    entries: &[Entry<'_>],
    config: &Config<'_>,
) -> Result<Vec<ModuleReport>, AllocError> {
    let found = submodules(alloc, entries)?;
    let mut audit = Audit::of(alloc, found.as_slice(), None)?;
    for (it, alone) in entries.iter().zip(entries.chunks(1)) {
        let audited = entry::audit(alloc, it, alone, Reading::Configuration)?;
        audit.add(alloc, audited, it, None)?;
    }
    for (submodule, report) in found.iter().zip(audit.reports.iter_mut()) {
        if let Some(url) = value_of(submodule.url) {
            report.fetch_from(alloc, config, url)?;
        }
    }
    Ok(audit.reports)
}

/// The findings so far. `places` has the index of each report by the name of its submodule, and `firsts` the index of
/// the first entry of each submodule noted so far.
#[derive(Drop)]
struct Audit<'a> {
    reports: Vec<ModuleReport>,
    places: BTreeMap<&'a [u8], usize>,
    firsts: Vec<usize>,
}

impl<'a> Audit<'a> {
    /// The submodules, without findings.
    fn of(
        alloc: Global,
        listed: &[Submodule<'a>],
        parent: Option<Parent<'_>>,
    ) -> Result<Audit<'a>, AllocError> {
        let mut reports = Vec::new(alloc);
        let mut places = BTreeMap::new(alloc);
        for submodule in listed {
            places.insert(submodule.name, reports.len())?;
            reports.push(ModuleReport::of(alloc, submodule, parent)?)?;
        }
        let firsts = Vec::new(alloc);
        Ok(Audit {
            reports,
            places,
            firsts,
        })
    }

    /// Notes the index of an entry, if it is the first one of its submodule. The submodules are in the order of their
    /// first entries.
    fn note_first(&mut self, name: Option<&'a [u8]>, index: usize) -> Result<(), AllocError> {
        let Some(name) = name else {
            return Ok(());
        };
        if self.places.get(name).copied() == Some(self.firsts.len()) {
            self.firsts.push(index)?;
        }
        Ok(())
    }

    /// Appends the findings about each submodule of a text as a whole.
    fn add_defects(
        &mut self,
        alloc: Global,
        text: &[u8],
        found: &[FileEntry<'a>],
        listed: &[Submodule<'a>],
    ) -> Result<(), AllocError> {
        let all = defects_of(alloc, listed)?;
        for (place, (submodule, defects)) in listed.iter().zip(all.iter()).enumerate() {
            let first = self.firsts.get(place).copied().unwrap_or(0);
            if let Some(report) = self.reports.get_mut(place) {
                report.add_defects(alloc, text, found, submodule, *defects, first)?;
            }
        }
        Ok(())
    }

    /// Appends the findings about an entry. `line` is a text and the line in it, if the entry is in a file.
    fn add(
        &mut self,
        alloc: Global,
        audited: Audited<'a>,
        entry: &Entry<'a>,
        line: Option<(&[u8], usize)>,
    ) -> Result<(), AllocError> {
        let Audited { name, items } = audited;
        if items.is_empty() {
            return Ok(());
        }
        let place = self.place_of(alloc, name.unwrap_or(b""))?;
        match self.reports.get_mut(place) {
            Some(report) => report.add(alloc, entry, line, items),
            None => Ok(()),
        }
    }

    /// The index of a submodule's report. The empty name, which Git refuses, is used for all names that it refuses.
    fn place_of(&mut self, alloc: Global, name: &'a [u8]) -> Result<usize, AllocError> {
        if let Some(place) = self.places.get(name) {
            return Ok(*place);
        }
        let place = self.reports.len();
        self.places.insert(name, place)?;
        self.reports.push(ModuleReport::empty(alloc))?;
        Ok(place)
    }
}

impl ModuleReport {
    /// A report without a submodule and without findings.
    fn empty(alloc: Global) -> ModuleReport {
        ModuleReport {
            submodule: None,
            path: None,
            url: None,
            resolved: None,
            fetch: Vec::new(alloc),
            update: None,
            branch: None,
            findings: Vec::new(alloc),
            places: Vec::new(alloc),
            found: Findings::none(),
        }
    }

    /// The values that Git uses for a submodule.
    fn of(
        alloc: Global,
        submodule: &Submodule<'_>,
        parent: Option<Parent<'_>>,
    ) -> Result<ModuleReport, AllocError> {
        let mut report = ModuleReport::empty(alloc);
        report.submodule = shown_part(alloc, Some(submodule.name))?;
        report.path = shown_part(alloc, value_of(submodule.path))?;
        report.update = shown_part(alloc, value_of(submodule.update))?;
        report.branch = shown_part(alloc, value_of(submodule.branch))?;
        if let Some(url) = value_of(submodule.url) {
            report.url = Some(shown_text(alloc, url)?);
            report.resolved = shown_resolved(alloc, resolved(alloc, url, parent)?)?;
        }
        Ok(report)
    }

    /// Appends the findings about an entry. `line` is a text and the line in it, if the entry is in a file.
    fn add(
        &mut self,
        alloc: Global,
        entry: &Entry<'_>,
        line: Option<(&[u8], usize)>,
        items: Vec<Item>,
    ) -> Result<(), AllocError> {
        let columns = line.map(|(text, _)| columns_at(text, entry.at));
        for Item { kind, words } in items {
            self.note(kind)?;
            self.places.push(Place {
                name: kind.name(),
                words,
                line: line.map(|(_, number)| number),
                column: columns.map(|it| it.start),
                end_column: columns.map(|it| it.end),
                entry: Setting::of(alloc, entry)?,
                kind,
            })?;
        }
        Ok(())
    }

    /// Appends the findings about the submodule as a whole. `first` is the index of its first entry.
    fn add_defects(
        &mut self,
        alloc: Global,
        text: &[u8],
        found: &[FileEntry<'_>],
        submodule: &Submodule<'_>,
        defects: Defects,
        first: usize,
    ) -> Result<(), AllocError> {
        for kind in &kinds_of(alloc, defects)? {
            match found.get(index_of(*kind, submodule, first)) {
                Some(it) => {
                    let mut items = Vec::new(alloc);
                    item::add(alloc, &mut items, *kind)?;
                    self.add(alloc, &it.entry, Some((text, it.line)), items)?;
                }
                None => self.note(*kind)?,
            }
        }
        Ok(())
    }

    /// Adds the text from which Git fetches the submodule, and the findings about it.
    fn fetch_from(
        &mut self,
        alloc: Global,
        config: &Config<'_>,
        url: &[u8],
    ) -> Result<(), AllocError> {
        let text = config.rewrites.rewrite_fetch(url);
        let route = Route::of_rewritten(alloc, config, None, &text)?;
        self.found = self.found.union(route.found);
        for name in &names_of(alloc, route.found)? {
            note_name(&mut self.findings, name)?;
        }
        for name in &route.dangers {
            note_name(&mut self.findings, name)?;
        }
        self.fetch.push(route)?;
        Ok(())
    }

    /// Notes the kind of a finding: the condition for which it makes a run fail, and its name.
    fn note(&mut self, kind: Kind) -> Result<(), AllocError>
        ensures { OnOk result (self.new.found ≡ union self.old.found (findings_of kind)) }
    {
        self.found = self.found.union(kind.findings());
        note_name(&mut self.findings, kind.class())?;
        note_name(&mut self.findings, kind.name())
    }
}

/// Appends a name, unless the list contains it.
fn note_name(names: &mut Vec<&'static str>, name: &'static str) -> Result<(), AllocError> {
    if names.iter().any(|it| *it == name) {
        return Ok(());
    }
    names.push(name)?;
    Ok(())
}

/// The value that Git uses, if it uses one.
fn value_of<'a>(used: Option<Used<'a>>) -> Option<&'a [u8]>
    ensures { option_map (λ value. value.now) result ≡ option_map (λ found. found.value.now) used.entry }
{
    match used {
        None => None,
        Some(used) => Some(used.value),
    }
}

/// The text to which a URL is resolved, as it is shown.
fn shown_resolved(alloc: Global, text: Option<BString>) -> Result<Option<String>, AllocError>
    ensures { IfOk result (λ shown. option_map string_bytes shown ≡ option_map (λ it. text_shown (bstring_bytes it)) text) }
{
    let Some(text) = text else {
        return Ok(None);
    };
    let shown = shown_text(alloc, text.as_bytes());
    drop(text);
    Ok(Some(shown?))
}
