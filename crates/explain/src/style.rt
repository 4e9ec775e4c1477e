//! The layout of reports, and the state of a run.

use crate::client::Client;
use crate::line_end::LineEnd;
use crate::only::Part;
use crate::paint::Colors;
use crate::results::{Origin, tail};
use crate::summary::Summary;
use explain_page::page::Page;
use explain_report::finding::Findings;
use explain_report::rules::config::Config;
use gix_url::lines::RunError;
use std::alloc::Global;
use std::io::Write;

/// The format of the lines and the layout of the reports.
#[derive(Clone, Copy)]
pub struct Style<'c, 'e: 'c> {
    pub layout: Layout,
    /// Whether reports for people are coloured.
    pub colors: Colors,
    /// How a line of the input ends.
    pub end: LineEnd,
    /// The configuration, if one is given, for rows about Git's use of lines by it.
    pub config: Option<&'c Config<'e>>,
    /// The program that Git runs for Secure Shell.
    pub client: Client<'c>,
    /// The findings that the run fails for.
    pub fail_on: Findings,
}

/// The layout of the report about a line.
#[derive(Clone, Copy)]
pub enum Layout {
    /// A heading, and a row for each fact.
    People,
    /// One JSON object.
    Json,
    /// One part of the location.
    Only(Part),
    /// Nothing.
    Quiet,
    /// A page for all lines together.
    Page,
    /// The results of a log in SARIF.
    Sarif,
    /// The command with which Git fetches by Secure Shell.
    Ssh,
    /// A summary of all lines together.
    Summary,
}

impl Layout {
    /// Whether a line is answered with its object.
    pub fn has_objects(self) -> bool {
        matches!(self, Layout::Json | Layout::Page)
    }
}

impl Style<'_, '_> {
    /// Whether the rest of the input can't change the result of the run.
    pub fn is_over(&self, seen: &Seen) -> bool {
        matches!(self.layout, Layout::Quiet) && seen.found.meets(self.fail_on)
    }
}

/// The state of a run.
#[derive(Drop)]
pub struct Seen {
    /// The number of lines.
    pub lines: u64,
    /// The findings in all lines.
    pub found: Findings,
    /// Whether a file couldn't be opened.
    pub lacks_file: bool,
    /// Whether a command is missing, and no finding is the reason.
    pub lacks_command: bool,
    /// The page, if one is requested.
    pub page: Page,
    /// The summary, if one is requested.
    pub summary: Summary,
    /// The origin of the line.
    pub origin: Origin,
    /// Whether a result of a SARIF log was written.
    pub has_results: bool,
}

impl Seen {
    /// The state before the first line. Allocates nothing.
    pub fn nothing(alloc: Global) -> Seen {
        Seen {
            lines: 0,
            found: Findings::none(),
            lacks_file: false,
            lacks_command: false,
            page: Page::new(alloc),
            summary: Summary::new(alloc),
            origin: Origin::unknown(),
            has_results: false,
        }
    }

    /// Writes a report. The first result of a log loses the comma at its front.
    pub fn write<W: Write>(
        &mut self,
        style: Style<'_, '_>,
        answer: &str,
        output: &mut W,
    ) -> Result<(), RunError> {
        let bytes = answer.as_bytes();
        if !matches!(style.layout, Layout::Sarif) || bytes.is_empty() {
            return output.write_all(bytes).map_err(RunError::Write);
        }
        let is_first = !self.has_results;
        self.has_results = true;
        match bytes {
            [b',', rest @ ..] if is_first => output.write_all(rest),
            _ => output.write_all(bytes),
        }
        .map_err(RunError::Write)
    }

    /// Writes the text after all reports: the page with this title or the summary, unless nothing could be read, or the
    /// end of a SARIF log.
    pub fn write_end<W: Write>(
        &self,
        style: Style<'_, '_>,
        title: &str,
        output: &mut W,
    ) -> Result<(), RunError> {
        match style.layout {
            Layout::Page | Layout::Summary if self.lacks_file && self.lines == 0 => Ok(()),
            Layout::Page => self.page.write(title, output),
            Layout::Summary => self.summary.write(output),
            Layout::Sarif => output
                .write_all(tail(!self.lacks_file).as_bytes())
                .map_err(RunError::Write),
            _ => Ok(()),
        }
    }

    /// The exit status: 0 if there is no finding that the run fails for, 1 if there is one, 2 if something couldn't be
    /// read or written, or a command is missing.
    pub fn status(&self, fail_on: Findings, outcome: &Result<(), RunError>) -> u8 {
        if outcome.is_err() || self.lacks_file || self.lacks_command {
            2
        } else if self.found.meets(fail_on) {
            1
        } else {
            0
        }
    }
}
