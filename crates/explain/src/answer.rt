//! The report about a line, in the layout that is asked for: the location that the line is parsed as, or why it is
//! refused.
//!
//! `explain_report` finds which parts of the line may be shown, the facts about a location or the reason of a parse
//! error, likely mistakes, and how Git uses the line by a configuration. `shown` lays these out for people,
//! and `only` prints one part; with `--json` the report is one object, and `--html` adds the object and the
//! row of the line to the page. `tests/programs` and the stored run test the reports.

use crate::object::object_of;
use crate::results::Origin;
use crate::style::{Layout, Style};
use crate::{line_results, only, shown};
use bstr::BStr;
use explain_page::page::Page;
use explain_page::row::Row;
use explain_report::advice::hint::{self, Hint};
use explain_report::advice::reading::Reading;
use explain_report::finding::Findings;
use explain_report::location_report::Report;
use explain_report::memory::both;
use explain_report::readers::{Readers, instead_of};
use explain_report::refusal::Refusal;
use explain_report::rules::{ReadLine, Rules, findings_by, found_by};
use explain_report::text::line::SeenLine;
use explain_report::text::marked::MarkedLine;
use explain_report::text::seen::Seen;
use git_audit::danger::{Danger, dangers};
use gix_url::parse::parse;
use gix_url::{Error, Url};
use std::alloc::{AllocError, Global};

/// A line, and the options for its report.
#[derive(Clone, Copy)]
pub struct Line<'a, 'e: 'a> {
    /// The number of the line, from 1.
    pub number: u64,
    /// The line without its end.
    pub bytes: &'a [u8],
    /// The origin of the line.
    pub origin: &'a Origin,
    pub style: Style<'a, 'e>,
}

/// The parts of a report besides the location or the refusal.
#[derive(Clone, Copy)]
pub struct Notes<'b> {
    /// The dangers in the line, and in the location that it is parsed as.
    pub dangers: &'b [Danger],
    /// The findings in the line, for which a run may fail.
    pub found: Findings,
    /// Programs that may read the line differently.
    pub readers: Option<&'b Readers>,
    /// Likely mistakes in the line.
    pub hints: &'b [Hint],
    /// How Git uses the line by the configuration, if one is given.
    pub rules: Option<&'b Rules>,
}

impl<'b> Notes<'b> {
    /// Notes without readers and hints.
    fn of(dangers: &'b [Danger], found: Findings, rules: Option<&'b Rules>) -> Notes<'b> {
        Notes {
            dangers,
            found,
            readers: None,
            hints: &[],
            rules,
        }
    }
}

impl Line<'_, '_> {
    /// The report, and the findings in the line. For a page the report is added there, and the returned text is empty.
    pub fn answer(self, alloc: Global, page: &mut Page) -> Result<(String, Findings), AllocError> {
        let read = parse(alloc, BStr::new(self.bytes));
        let answer = match &read {
            Ok(url) => self.of_location(alloc, url, page),
            Err(error) => self.error(alloc, error, page),
        };
        drop(read);
        answer
    }

    /// The report about a location, and the findings in it.
    fn of_location(
        self,
        alloc: Global,
        url: &Url,
        page: &mut Page,
    ) -> Result<(String, Findings), AllocError> {
        let found = dangers(alloc, self.bytes, &url.as_ref())?;
        let own = Findings::of_location(url, found.as_slice());
        let answer = match self.style.layout {
            Layout::Quiet => self.with_findings(alloc, Ok(String::new(alloc)), own),
            Layout::Only(part) => {
                let answer = only::line(alloc, self.bytes, url, part);
                self.with_findings(alloc, answer, own)
            }
            _ => self.reported(alloc, url, found.as_slice(), own, page),
        };
        drop(found);
        answer
    }

    /// An answer that doesn't report how Git uses the line, and the findings in it. Without the configuration the line
    /// has these findings.
    fn with_findings(
        self,
        alloc: Global,
        answer: Result<String, AllocError>,
        own: Findings,
    ) -> Result<(String, Findings), AllocError> {
        let answer = answer?;
        let (answer, found) = both(
            answer,
            findings_by(alloc, self.style.config, self.bytes, own),
        )?;
        Ok((answer, own.union(found)))
    }

    /// The report about a location with these dangers, and the findings in it. Without the configuration it has these
    /// findings.
    fn reported(
        self,
        alloc: Global,
        url: &Url,
        dangers: &[Danger],
        own: Findings,
        page: &mut Page,
    ) -> Result<(String, Findings), AllocError> {
        let line = MarkedLine::of(self.bytes);
        let rules = self.rules(alloc, line, Some(url), dangers, own)?;
        let findings = own.union(found_by(rules.as_ref()));
        let notes = Notes::of(dangers, findings, rules.as_ref());
        let answer = match self.style.layout {
            Layout::Sarif => line_results::location(alloc, self, url, notes),
            _ => self.location(alloc, line, url, notes, page),
        };
        drop(rules);
        Ok((answer?, findings))
    }

    /// The report about a location. The notes have no hints and no readers yet.
    fn location(
        self,
        alloc: Global,
        line: MarkedLine<'_>,
        url: &Url,
        notes: Notes<'_>,
        page: &mut Page,
    ) -> Result<String, AllocError> {
        let seen = Seen::of(alloc, line, url)?;
        let answer = match seen.shown(line, url) {
            Some((shown, location)) => {
                let host = location.host();
                let readers = Readers::of_location(alloc, line, url, notes.dangers, host);
                let reading = (location, line.has_secret());
                self.shown_so(alloc, shown, reading, readers, notes, page)
            }
            None => self.withheld(alloc, url, notes, page),
        };
        drop(seen);
        answer
    }

    /// The report about a location whose line is shown as this line, with the programs that may read it differently.
    /// The pair is the location that the shown line is read as, and whether a part of the own line may be a secret.
    fn shown_so<'t>(
        self,
        alloc: Global,
        line: MarkedLine<'t>,
        (url, has_hidden): (&'t Url, bool),
        readers: Result<Option<Readers>, AllocError>,
        notes: Notes<'_>,
        page: &mut Page,
    ) -> Result<String, AllocError> {
        let readers = readers?;
        let (readers, seen) = both(readers, SeenLine::of(alloc, line))?;
        let ((readers, seen), report) = both((readers, seen), Report::of(alloc, url))?;
        let has_instead = instead_of(readers.as_ref()).is_some();
        let reading = Reading::of(url, &report, has_instead, has_hidden);
        let found = hint::find(alloc, line.bytes, Some(&reading));
        let (((seen, report), readers), found) = both(((seen, report), readers), found)?;
        let notes = Notes {
            dangers: notes.dangers,
            found: notes.found,
            readers: readers.as_ref(),
            hints: found.as_slice(),
            rules: notes.rules,
        };
        let answer = self.laid_out(alloc, url, &report, &seen, notes, page);
        drop(found);
        drop(readers);
        drop(report);
        drop(seen);
        answer
    }

    /// The report about a location that is shown, in the layout of the run.
    fn laid_out<'x, 'a: 'x>(
        self,
        alloc: Global,
        url: &Url,
        report: &'x Report<'a>,
        seen: &'x SeenLine<'a>,
        notes: Notes<'x>,
        page: &mut Page,
    ) -> Result<String, AllocError> {
        if self.style.layout.has_objects() {
            let row = self.row(seen, Some(report), None, notes);
            return self.object(alloc, &row, notes, page);
        }
        shown::location(alloc, self, url, report, seen, notes)
    }

    /// The report about a location that isn't shown, because its parts may be secrets.
    fn withheld(
        self,
        alloc: Global,
        url: &Url,
        notes: Notes<'_>,
        page: &mut Page,
    ) -> Result<String, AllocError> {
        let seen = SeenLine::without_parts(alloc, self.bytes)?;
        let (seen, refusal) = both(seen, Refusal::withheld(alloc))?;
        let row = self.row(&seen, None, Some(&refusal), notes);
        let answer = if self.style.layout.has_objects() {
            self.object(alloc, &row, notes, page)
        } else {
            shown::withheld(alloc, self, url, &refusal, &seen, notes)
        };
        drop(refusal);
        drop(seen);
        answer
    }

    /// How Git uses the line by the configuration that is given. The line is parsed as this location, or is refused,
    /// and has these dangers and findings.
    fn rules(
        self,
        alloc: Global,
        line: MarkedLine<'_>,
        url: Option<&Url>,
        dangers: &[Danger],
        found: Findings,
    ) -> Result<Option<Rules>, AllocError> {
        let read = ReadLine {
            line,
            url,
            dangers,
            found,
        };
        Rules::of_input(alloc, self.style.config, read)
    }

    /// The report about a line that isn't a location, and the findings in it. The error may be that memory was refused.
    fn error(
        self,
        alloc: Global,
        error: &Error,
        page: &mut Page,
    ) -> Result<(String, Findings), AllocError> {
        if let Error::Memory = error {
            return Err(AllocError);
        }
        let own = Findings::of_refused();
        match self.style.layout {
            Layout::Quiet => self.with_findings(alloc, Ok(String::new(alloc)), own),
            Layout::Only(_) => self.with_findings(alloc, String::from_str(alloc, "\n"), own),
            _ => self.refused(alloc, error, own, page),
        }
    }

    /// The report about a line that is refused, and the findings in it. Without the configuration it has these findings.
    fn refused(
        self,
        alloc: Global,
        error: &Error,
        own: Findings,
        page: &mut Page,
    ) -> Result<(String, Findings), AllocError> {
        let line = MarkedLine::of(self.bytes);
        let rules = self.rules(alloc, line, None, &[], own)?;
        let findings = own.union(found_by(rules.as_ref()));
        let answer = match self.style.layout {
            Layout::Sarif => line_results::refusal(alloc, self, error, rules.as_ref()),
            _ => self.refusal(alloc, error, line, (findings, rules.as_ref()), page),
        };
        drop(rules);
        Ok((answer?, findings))
    }

    /// The report about a line that is refused. It has these findings, and Git uses it so by the configuration.
    fn refusal(
        self,
        alloc: Global,
        error: &Error,
        line: MarkedLine<'_>,
        (findings, rules): (Findings, Option<&Rules>),
        page: &mut Page,
    ) -> Result<String, AllocError> {
        let seen = SeenLine::of(alloc, line)?;
        let (seen, refusal) = both(seen, Refusal::with_git(alloc, self.bytes, error))?;
        let readers = Readers::of_refused(alloc, self.bytes);
        let ((seen, refusal), readers) = both((seen, refusal), readers)?;
        let found = hint::find(alloc, self.bytes, None);
        let (((seen, refusal), readers), found) = both(((seen, refusal), readers), found)?;
        let notes = Notes {
            dangers: &[],
            found: findings,
            readers: readers.as_ref(),
            hints: found.as_slice(),
            rules,
        };
        let row = self.row(&seen, None, Some(&refusal), notes);
        let answer = if self.style.layout.has_objects() {
            self.object(alloc, &row, notes, page)
        } else {
            shown::refusal(alloc, self, &refusal, &seen, notes)
        };
        drop(found);
        drop(readers);
        drop(refusal);
        drop(seen);
        answer
    }

    /// The facts about the line that its row on a page and its object have.
    fn row<'x, 'a: 'x>(
        self,
        seen: &'x SeenLine<'a>,
        location: Option<&'x Report<'a>>,
        refusal: Option<&'x Refusal>,
        notes: Notes<'x>,
    ) -> Row<'x, 'a> {
        Row {
            number: self.number,
            seen,
            location,
            refusal,
            dangers: notes.dangers,
            found: notes.found,
        }
    }

    /// The object of the line. For a page it is added there with the row, and the returned text is empty.
    fn object(
        self,
        alloc: Global,
        row: &Row<'_, '_>,
        notes: Notes<'_>,
        page: &mut Page,
    ) -> Result<String, AllocError> {
        let object = object_of(alloc, row, notes)?;
        if !matches!(self.style.layout, Layout::Page) {
            return Ok(object);
        }
        let added = page.add(row, object.as_str());
        drop(object);
        added?;
        Ok(String::new(alloc))
    }
}
