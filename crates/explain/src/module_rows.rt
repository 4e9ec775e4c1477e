//! The output for a submodule of a file: rows for people, a JSON object for programs, results of a log.
//!
//! `tests/programs/test_command_lines.py` tests the output.

use crate::line_results::add_route;
use crate::remote_rows::{routed, value};
use crate::results::{Origin, push, push_items};
use crate::style::Layout;
use explain_audit::kind::Kind;
use explain_audit::module::{ModuleReport, Place};
use explain_audit::sarif::{Region, Spot};
use explain_report::rules::rows::Way;
use explain_report::text::line::Quoted;
use std::alloc::{AllocError, Global};
use std::fmt::Write;

/// The report about a submodule, in the layout that is asked for.
pub fn answer(
    alloc: Global,
    report: &ModuleReport,
    layout: Layout,
    origin: &Origin,
) -> Result<String, AllocError> {
    match layout {
        Layout::Quiet => Ok(String::new(alloc)),
        Layout::Json => crate::object::json(alloc, report),
        Layout::Sarif => results(alloc, report, origin),
        _ => rows(alloc, report),
    }
}

/// The heading of a submodule, and its rows.
fn rows(alloc: Global, report: &ModuleReport) -> Result<String, AllocError> {
    let mut out = String::new(alloc);
    match &report.submodule {
        None => writeln!(out, "no submodule: Git refuses the name")?,
        Some(name) => writeln!(out, "submodule {}", Quoted(name.as_str().as_bytes()))?,
    }
    value(&mut out, "path", &report.path)?;
    url(&mut out, report)?;
    value(&mut out, "resolved", &report.resolved)?;
    for way in &report.fetch {
        routed(alloc, &mut out, Way::Fetch, way)?;
    }
    value(&mut out, "update", &report.update)?;
    value(&mut out, "branch", &report.branch)?;
    for place in &report.places {
        place_row(&mut out, place)?;
    }
    Ok(out)
}

/// The row of the URL, unless Git fetches from the URL itself.
fn url(out: &mut String, report: &ModuleReport) -> Result<(), AllocError> {
    if report.fetch.iter().any(|way| !way.rewritten) {
        return Ok(());
    }
    value(out, "url", &report.url)
}

/// The row of a finding at an entry: the position, the key, the name that fsck has for it, and the words.
fn place_row(out: &mut String, place: &Place) -> Result<(), AllocError> {
    let (name, words) = (row_name(place.kind), place.words.as_str());
    write!(out, "    {name:<12}")?;
    match (place.line, place.column) {
        (Some(line), Some(column)) => write!(out, "line {line}, column {column}, ")?,
        _ => write!(out, "byte {}, ", place.entry.at)?,
    }
    write!(out, "{}: ", Quoted(place.entry.key.as_str().as_bytes()))?;
    if let Kind::Fsck(refused) = place.kind {
        write!(out, "{}: ", refused.as_str())?;
    }
    writeln!(out, "{words}")
}

/// The name at the front of a finding's row.
fn row_name(kind: Kind) -> &'static str {
    match kind {
        Kind::Danger(_) | Kind::ParentHost | Kind::SamePath => "danger",
        Kind::Fsck(_) => "fsck",
        Kind::Risk(_) => "risk",
        Kind::NoParent | Kind::Unsettled => "unsettled",
        Kind::Unresolved(_) | Kind::NoLocation | Kind::NoPath | Kind::NoUrl => "refused",
        Kind::GitDiffers => "git",
        Kind::Policy => "transport",
    }
}

/// The results of a log about a submodule.
fn results(alloc: Global, report: &ModuleReport, origin: &Origin) -> Result<String, AllocError> {
    let mut out = String::new(alloc);
    for place in &report.places {
        let spot = Spot {
            uri: origin.uri(),
            region: region_of(place),
            name: Some(place.entry.key.as_str()),
        };
        push(alloc, &mut out, place.kind, place.words.as_str(), spot)?;
    }
    let mut items = Vec::new(alloc);
    for way in &report.fetch {
        add_route(alloc, &mut items, Way::Fetch, way, true)?;
    }
    let spot = Spot {
        uri: origin.uri(),
        region: None,
        name: report.submodule.as_deref(),
    };
    push_items(alloc, &mut out, items.as_slice(), spot)?;
    Ok(out)
}

/// The columns of the entry that has the finding, if it is in a file.
fn region_of(place: &Place) -> Option<Region> {
    match (place.line, place.column, place.end_column) {
        (Some(line), Some(start_column), Some(end_column)) => Some(Region {
            start_line: line as u64,
            start_column,
            end_column,
        }),
        _ => None,
    }
}
