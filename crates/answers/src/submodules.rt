//! Calls of `git_modules` over the entries of a `.gitmodules` file.

use crate::halt::Halt;
use crate::order::{Order, unknown};
use crate::report::{Out, Report, report_borrowed, report_member, report_owned};
use bstr::BStr;
use git_modules::submodules::defect::{Defects, defects_of};
use git_modules::submodules::refusal::check;
use git_modules::submodules::risk::{Risk, has_risk};
use git_modules::submodules::{Submodule, submodules};
use git_rules::config::Entry;
use std::alloc::Global;
use std::io::{self, Write};

/// Calls over all entries.
pub fn over_entries(
    alloc: Global,
    order: Order<'_>,
    entries: &[Entry<'_>],
    out: &mut Out,
) -> Result<(), Halt> {
    match order.call() {
        "refusal::check" => Ok(report_refusals(entries, out)?),
        "risk::has_risk" => report_risk(order, entries, out),
        "submodules::submodules" => report_owned(out, submodules(alloc, entries)),
        call => unknown(call),
    }
}

/// Calls over the submodules of all entries.
pub fn over_submodules(
    alloc: Global,
    order: Order<'_>,
    entries: &[Entry<'_>],
    out: &mut Out,
) -> Result<(), Halt> {
    let listed = submodules(alloc, entries)?;
    let outcome = match order.call() {
        "defect::defects_of" => report_owned(out, defects_of(alloc, listed.as_slice())),
        call => unknown(call),
    };
    drop(listed);
    outcome
}

/// Reports whether the first entry has a risk.
fn report_risk(order: Order<'_>, entries: &[Entry<'_>], out: &mut Out) -> Result<(), Halt> {
    let risk = risk_named(order.needed("risk")?)?;
    match entries.first() {
        Some(entry) => report_borrowed(out, &has_risk(entry, risk)),
        None => Err(Halt::Unprepared),
    }
}

/// The risk with this name.
fn risk_named(name: &str) -> Result<Risk, Halt> {
    match name {
        "AbsolutePath" => Ok(Risk::AbsolutePath),
        "PathUpwards" => Ok(Risk::PathUpwards),
        "PathIntoGit" => Ok(Risk::PathIntoGit),
        "OptionAsBranch" => Ok(Risk::OptionAsBranch),
        "OptionAsUpdate" => Ok(Risk::OptionAsUpdate),
        "ControlCharacter" => Ok(Risk::ControlCharacter),
        "NoValue" => Ok(Risk::NoValue),
        _ => Err(Halt::Unprepared),
    }
}

/// Reports the reasons why fsck refuses entries, by Git's names and in the order of the entries.
fn report_refusals(entries: &[Entry<'_>], out: &mut Out) -> io::Result<()> {
    out.write_all(b"[")?;
    let mut is_first = true;
    for entry in entries {
        let found = check(entry);
        for reason in [found.name, found.value] {
            if let Some(reason) = reason {
                if !is_first {
                    out.write_all(b",")?;
                }
                is_first = false;
                reason.as_str().report(out)?;
            }
        }
    }
    out.write_all(b"]")
}

impl Report for Vec<Submodule<'_>> {
    /// Reports the submodules that have a path and a URL, each with its URL and how it is updated.
    fn report(&self, out: &mut Out) -> io::Result<()> {
        let mut before = "{";
        for it in self {
            if let (Some(_), Some(url)) = (it.path, it.url) {
                out.write_all(before.as_bytes())?;
                before = ",";
                BStr::new(it.name).report(out)?;
                out.write_all(b":{\"url\":")?;
                BStr::new(url.value).report(out)?;
                report_member(out, "update", &it.update.map(|used| BStr::new(used.value)))?;
                out.write_all(b"}")?;
            }
        }
        out.write_all(if before == "{" { b"{}" } else { b"}" })
    }
}

impl Report for Vec<Defects> {
    /// Reports the names of the defects of each submodule.
    fn report(&self, out: &mut Out) -> io::Result<()> {
        out.write_all(b"[")?;
        let mut is_first = true;
        for it in self {
            if !is_first {
                out.write_all(b",")?;
            }
            is_first = false;
            report_defects(*it, out)?;
        }
        out.write_all(b"]")
    }
}

/// Reports the names of the defects of a submodule.
fn report_defects(defects: Defects, out: &mut Out) -> io::Result<()> {
    out.write_all(b"[")?;
    let mut is_first = true;
    let named = [
        ("no_path", defects.no_path),
        ("no_url", defects.no_url),
        ("same_path", defects.same_path),
    ];
    for (name, is_there) in named {
        if is_there {
            if !is_first {
                out.write_all(b",")?;
            }
            is_first = false;
            name.report(out)?;
        }
    }
    out.write_all(b"]")
}
