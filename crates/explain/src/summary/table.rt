//! The text of a summary: a heading for each group, and below it a row for each count.

use crate::summary::danger_counts::DANGERS;
use crate::summary::{Forms, Summary, Verdicts};
use explain_report::text::line::Quoted;
use std::alloc::{AllocError, Global};
use std::cmp::Reverse;
use std::fmt::{Display, Write};

/// How many hosts have a row of their own.
const HOSTS: usize = 10;

/// A host and its number of lines.
#[derive(Clone, Copy)]
struct Host<'a> {
    name: &'a str,
    lines: u64,
}

/// The text of a summary.
pub(super) fn text_of(alloc: Global, summary: &Summary) -> Result<String, AllocError> {
    let mut out = String::new(alloc);
    let lines = summary.verdicts.lines();
    writeln!(out, "lines: {lines}")?;
    push_forms(&mut out, summary.forms)?;
    push_verdicts(&mut out, summary.verdicts)?;
    push_dangers(&mut out, summary)?;
    push_others(&mut out, summary.verdicts)?;
    push_hosts(alloc, &mut out, summary)?;
    Ok(out)
}

/// Appends the row of a number of lines.
fn row<D: Display + Drop>(out: &mut String, lines: u64, what: D) -> Result<(), AllocError> {
    writeln!(out, "{lines:>8}  {what}")
}

/// Appends the row of a number of lines, if there are any.
fn row_of_some(out: &mut String, lines: u64, what: &str) -> Result<(), AllocError> {
    if lines == 0 {
        return Ok(());
    }
    row(out, lines, what)
}

/// Appends the rows of the forms.
fn push_forms(out: &mut String, forms: Forms) -> Result<(), AllocError> {
    out.push_str("form\n")?;
    row(out, forms.urls, "URL")?;
    row(out, forms.scp_forms, "scp form")?;
    row(out, forms.local_paths, "local path")?;
    row(out, forms.helpers, "remote helper")
}

/// Appends the rows of the verdicts.
fn push_verdicts(out: &mut String, verdicts: Verdicts) -> Result<(), AllocError> {
    out.push_str("verdict\n")?;
    row(out, verdicts.settled, "settled")?;
    row(out, verdicts.unsettled, "not settled")?;
    row(out, verdicts.refused, "refused")?;
    row(out, verdicts.dangerous, "dangerous")
}

/// Appends the rows of the dangers, if a line has one.
fn push_dangers(out: &mut String, summary: &Summary) -> Result<(), AllocError> {
    if summary.dangers.is_empty() {
        return Ok(());
    }
    out.push_str("danger\n")?;
    for danger in DANGERS.as_slice() {
        row_of_some(out, summary.dangers.of(*danger), danger.words())?;
    }
    Ok(())
}

/// Appends the rows of the other findings, if there are any.
fn push_others(out: &mut String, verdicts: Verdicts) -> Result<(), AllocError> {
    if verdicts.git_differs == 0 && verdicts.policy == 0 {
        return Ok(());
    }
    out.push_str("git\n")?;
    row_of_some(out, verdicts.git_differs, "isn't known to read the same")?;
    row_of_some(out, verdicts.policy, "doesn't use the transport")
}

/// Appends the rows of the hosts: those with the most lines, all others together, and lines without a host.
fn push_hosts(alloc: Global, out: &mut String, summary: &Summary) -> Result<(), AllocError> {
    let mut hosts = Vec::new(alloc);
    for (name, lines) in summary.hosts.iter() {
        hosts.push(host_of(name.as_str(), *lines))?;
    }
    hosts.sort_by_key(|host| Reverse(host.lines))?;
    let pushed = push_most(out, hosts.as_slice());
    drop(hosts);
    pushed?;
    row_of_some(out, summary.without_host, "without a host")
}

/// A host and its number of lines.
fn host_of(name: &str, lines: u64) -> Host<'_> {
    Host { name, lines }
}

/// Appends the rows of the hosts, which are sorted.
fn push_most(out: &mut String, hosts: &[Host<'_>]) -> Result<(), AllocError> {
    let (own, others) = hosts.split_at(hosts.len().min(HOSTS));
    out.push_str("host\n")?;
    for host in own {
        row(out, host.lines, Quoted(host.name.as_bytes()))?;
    }
    if others.is_empty() {
        return Ok(());
    }
    let count = others.len();
    row(out, sum_of(others), format_args!("of {count} other hosts"))
}

/// The number of lines with one of these hosts.
fn sum_of(hosts: &[Host<'_>]) -> u64 {
    let mut sum = 0u64;
    for host in hosts {
        sum = sum.saturating_add(host.lines);
    }
    sum
}
