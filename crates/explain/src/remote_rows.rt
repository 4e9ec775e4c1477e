//! The output for a remote of a configuration: rows for people, a JSON object for programs.
//!
//! `tests/programs/test_explain_rules.py` tests the output.

use crate::results::Origin;
use crate::shown::row;
use crate::style::Layout;
use crate::{line_results, rule_rows};
use explain_audit::kind::names_of;
use explain_report::remotes::RemoteReport;
use explain_report::rules::route::Route;
use explain_report::rules::rows::{Way, of_route};
use explain_report::text::line::Quoted;
use serde::Serialize;
use std::alloc::{AllocError, Global};
use std::fmt::Write;

/// The report about a remote, in the layout that is asked for.
pub fn answer(
    alloc: Global,
    remote: &RemoteReport,
    layout: Layout,
    origin: &Origin,
) -> Result<String, AllocError> {
    match layout {
        Layout::Quiet => Ok(String::new(alloc)),
        Layout::Json => json(alloc, remote),
        Layout::Sarif => line_results::remote(alloc, remote, origin),
        _ => rows(alloc, remote),
    }
}

/// A remote, and the names of the findings in it.
#[derive(Clone, Copy, Serialize)]
struct FoundRemote<'a> {
    #[serde(flatten)]
    report: &'a RemoteReport,
    findings: &'a [&'static str],
}

/// The object of a remote.
fn json(alloc: Global, remote: &RemoteReport) -> Result<String, AllocError> {
    let names = names_of(alloc, remote.found())?;
    let answer = crate::object::json(
        alloc,
        &FoundRemote {
            report: remote,
            findings: names.as_slice(),
        },
    );
    drop(names);
    answer
}

/// The heading of a remote, and its rows.
fn rows(alloc: Global, remote: &RemoteReport) -> Result<String, AllocError> {
    let mut out = String::new(alloc);
    let name = Quoted(remote.remote.as_str().as_bytes());
    writeln!(out, "remote {name}")?;
    if let Some(at) = remote.stops_at {
        row(
            &mut out,
            "stops",
            format_args!("Git stops at the entry at byte {at}, which has no value"),
        )?;
    }
    for way in &remote.fetch {
        routed(alloc, &mut out, Way::Fetch, way)?;
    }
    for way in &remote.push {
        routed(alloc, &mut out, Way::Push, way)?;
    }
    value(&mut out, "vcs", &remote.vcs)?;
    value(&mut out, "proxy", &remote.proxy)?;
    value(&mut out, "uploadpack", &remote.uploadpack)?;
    value(&mut out, "receivepack", &remote.receivepack)?;
    Ok(out)
}

/// The rows of a text that Git connects to.
pub fn routed(alloc: Global, out: &mut String, way: Way, route: &Route) -> Result<(), AllocError> {
    let rows = of_route(alloc, way, route)?;
    let pushed = rule_rows::push(out, rows.as_slice());
    drop(rows);
    pushed
}

/// The row of a value, if there is one.
pub fn value(out: &mut String, name: &str, value: &Option<String>) -> Result<(), AllocError> {
    match value {
        None => Ok(()),
        Some(value) => row(out, name, Quoted(value.as_str().as_bytes())),
    }
}
