//! The report about a line as one object of JSON, which `--json` prints and the page contains.

use crate::answer::Notes;
use explain_audit::kind::names_of;
use explain_page::row::Row;
use explain_report::advice::danger::names;
use explain_report::advice::hint::Hint;
use explain_report::location_report::Report;
use explain_report::memory::both;
use explain_report::readers::Readers;
use explain_report::refusal::Refusal;
use explain_report::rules::Rules;
use serde::Serialize;
use std::alloc::{AllocError, Global};

/// The report about a line: a location, or why there is none.
#[derive(Clone, Copy, Serialize)]
struct Answer<'b, 'a: 'b> {
    /// The number of the line, from 1.
    line: u64,
    /// The line as it may be shown.
    input: &'b str,
    /// The location that the line is parsed as.
    location: Option<&'b Report<'a>>,
    /// Why the line isn't a location.
    refusal: Option<&'b Refusal>,
    /// Programs that may read the line differently.
    readers: Option<&'b Readers>,
    /// The names of the dangers in the line.
    dangers: &'b [&'static str],
    /// The names of the findings in the line, for which a run may fail.
    findings: &'b [&'static str],
    /// Likely mistakes in the line.
    hints: &'b [Hint],
    /// How Git uses the line by the configuration, if one is given.
    rules: Option<&'b Rules>,
}

/// The object of a line with this row.
pub fn object_of(alloc: Global, row: &Row<'_, '_>, notes: Notes<'_>) -> Result<String, AllocError> {
    let (names, found) = both(names(alloc, notes.dangers)?, names_of(alloc, notes.found))?;
    let object = json(
        alloc,
        &Answer {
            line: row.number,
            input: row.seen.input.as_str(),
            location: row.location,
            refusal: row.refusal,
            readers: notes.readers,
            dangers: names.as_slice(),
            findings: found.as_slice(),
            hints: notes.hints,
            rules: notes.rules,
        },
    );
    drop(found);
    drop(names);
    object
}

/// The report as one line of JSON. Each part of a report has a JSON form, so the call fails only if memory is refused.
pub fn json<T: Serialize>(alloc: Global, answer: &T) -> Result<String, AllocError> {
    match serde_json::to_string(alloc, answer) {
        Ok(mut line) => {
            line.push('\n')?;
            Ok(line)
        }
        Err(_) => Err(AllocError),
    }
}
