//! Reports about the submodules of a file.
//!
//! `tests/programs/test_command_lines.py` tests the output, and the files that are refused.

use crate::results::Origin;
use crate::source::text_of;
use crate::style::{Seen, Style};
use crate::{module_rows, options};
use bstr::BStr;
use clap::ArgMatches;
use explain_audit::module::{ModuleReport, reports};
use explain_audit::url::Parent;
use explain_report::text::line::Shown;
use git_modules::config_file::flaw::FileError;
use gix_url::Error;
use gix_url::lines::RunError;
use gix_url::parse::parse;
use std::alloc::Global;
use std::io::Write;

/// Reports about the submodules of a file; `-` is standard input. If the file can't be read or isn't a configuration,
/// prints that, and no reports.
pub fn answer_file<W: Write>(
    rt: &HostRuntime,
    given: &ArgMatches<'_>,
    file: &str,
    output: &mut W,
    style: Style<'_, '_>,
    seen: &mut Seen,
) -> Result<(), RunError> {
    seen.origin = Origin::file(rt.alloc(), style.layout, file)?;
    match text_of(rt, file) {
        Ok(text) => {
            let outcome = answer_text(rt, given, file, text.as_slice(), output, style, seen);
            drop(text);
            outcome
        }
        Err(error) => {
            let file = Shown(file.as_bytes());
            let _ = eprintln!(rt; "explain: cannot read {file}: {error}");
            seen.lacks_file = true;
            Ok(())
        }
    }
}

/// Reports about the submodules of a text, with the superproject that is named, if one is.
fn answer_text<W: Write>(
    rt: &HostRuntime,
    given: &ArgMatches<'_>,
    file: &str,
    text: &[u8],
    output: &mut W,
    style: Style<'_, '_>,
    seen: &mut Seen,
) -> Result<(), RunError> {
    let Some(parent) = options::parent(given) else {
        return answer_below(rt, file, text, None, output, style, seen);
    };
    match parse(rt.alloc(), BStr::new(parent.as_bytes())) {
        Ok(url) => {
            let parent = Parent {
                text: parent.as_bytes(),
                url: &url,
            };
            let outcome = answer_below(rt, file, text, Some(parent), output, style, seen);
            drop(url);
            outcome
        }
        Err(Error::Memory) => Err(RunError::Memory),
        Err(error) => {
            let _ = eprintln!(rt; "explain: --parent is no location: {error}");
            drop(error);
            seen.lacks_file = true;
            Ok(())
        }
    }
}

/// Reports about the submodules of a text, below a superproject.
fn answer_below<W: Write>(
    rt: &HostRuntime,
    file: &str,
    text: &[u8],
    parent: Option<Parent<'_>>,
    output: &mut W,
    style: Style<'_, '_>,
    seen: &mut Seen,
) -> Result<(), RunError> {
    match reports(rt.alloc(), text, parent) {
        Ok(found) => {
            let outcome = answer_reports(rt.alloc(), found.as_slice(), output, style, seen);
            drop(found);
            outcome
        }
        Err(FileError::Memory) => Err(RunError::Memory),
        Err(error) => {
            let file = Shown(file.as_bytes());
            let _ = eprintln!(rt; "explain: {file}: {error}");
            seen.lacks_file = true;
            Ok(())
        }
    }
}

/// Writes the reports about submodules, and records the findings.
pub fn answer_reports<W: Write>(
    alloc: Global,
    reports: &[ModuleReport],
    output: &mut W,
    style: Style<'_, '_>,
    seen: &mut Seen,
) -> Result<(), RunError> {
    for report in reports {
        let answer = module_rows::answer(alloc, report, style.layout, &seen.origin)?;
        seen.found = seen.found.union(report.found);
        let written = seen.write(style, answer.as_str(), output);
        drop(answer);
        written?;
        if style.is_over(seen) {
            break;
        }
    }
    Ok(())
}
