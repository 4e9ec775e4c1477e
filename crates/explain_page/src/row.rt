//! The row of a line in the table of the page: its number, its text, the verdict, its dangers and its host.

use crate::markup::Markup;
use crate::text;
use explain_report::finding::Findings;
use explain_report::location_report::Report;
use explain_report::refusal::Refusal;
use explain_report::text::line::SeenLine;
use git_audit::danger::Danger;
use std::alloc::{AllocError, Global};

/// A line and its report.
#[derive(Clone, Copy)]
pub struct Row<'b, 'a: 'b> {
    /// The number of the line, from 1.
    pub number: u64,
    /// The line as it is shown.
    pub seen: &'b SeenLine<'a>,
    /// The report of the line's location.
    pub location: Option<&'b Report<'a>>,
    /// The reason why there is no such report: the line is refused, or its location is withheld.
    pub refusal: Option<&'b Refusal>,
    /// The dangers of the line.
    pub dangers: &'b [Danger],
    /// The findings about the line, for which a run may fail.
    pub found: Findings,
}

impl Row<'_, '_> {
    /// Appends the row.
    pub(crate) fn push(&self, alloc: Global, out: &mut Markup) -> Result<(), AllocError> {
        out.push_template("<tr\nid=l")?;
        out.push_value(self.number)?;
        out.push_template("><th scope=row><a href=#l")?;
        out.push_value(self.number)?;
        out.push_template(">")?;
        out.push_value(self.number)?;
        out.push_template("</a><td")?;
        match self.refusal {
            None => text::push_parts(alloc, out, self.seen)?,
            Some(refusal) => text::push_refused(out, self.seen, refusal)?,
        }
        out.push_template("<td>")?;
        self.push_verdict(out)?;
        out.push_template("<td>")?;
        push_dangers(out, self.dangers)?;
        if self.found.danger && self.dangers.is_empty() {
            out.push_template("<b>once the configuration has rewritten it</b>")?;
        }
        out.push_template("<td>")?;
        match self.location {
            Some(report) => out.push_shown(report.host.unwrap_or("").as_bytes()),
            None => Ok(()),
        }
    }

    /// Appends the verdict, the reasons for it, and the findings about Git.
    fn push_verdict(&self, out: &mut Markup) -> Result<(), AllocError> {
        match (self.location, self.refusal) {
            (Some(report), _) => {
                push_settled(out, report)?;
                self.push_rewritten(out, report.settled)?;
            }
            (None, Some(refusal)) => push_refusal(out, refusal)?,
            (None, None) => {}
        }
        if self.found.git_differs {
            out.push_template("; Git isn't known to read the same")?;
        }
        if self.found.policy {
            out.push_template("; Git has no transport that it uses")?;
        }
        Ok(())
    }

    /// Appends whether the rewritten text is refused, or isn't settled although the location is.
    fn push_rewritten(&self, out: &mut Markup, is_settled: bool) -> Result<(), AllocError> {
        if self.found.refused {
            out.push_template("; refused once the configuration has rewritten it")?;
        }
        if self.found.unsettled && is_settled {
            out.push_template("; not settled once the configuration has rewritten it")?;
        }
        Ok(())
    }
}

/// Appends whether a location is settled, and the reading of its text if it isn't.
fn push_settled(out: &mut Markup, report: &Report<'_>) -> Result<(), AllocError> {
    if report.settled {
        return out.push_template("settled");
    }
    out.push_template("not settled")?;
    match &report.reread {
        None => Ok(()),
        Some(reread) => {
            out.push_template(": ")?;
            out.push_text(reread.words.as_str())
        }
    }
}

/// Appends the reason why a line is refused, or its location is withheld.
fn push_refusal(out: &mut Markup, refusal: &Refusal) -> Result<(), AllocError> {
    out.push_template(if refusal.error == "Withheld" {
        "withheld: "
    } else {
        "refused: "
    })?;
    out.push_text(refusal.words.as_str())
}

/// Appends dangers in words.
fn push_dangers(out: &mut Markup, found: &[Danger]) -> Result<(), AllocError> {
    let mut open = "<b>";
    for danger in found {
        out.push_template(open)?;
        out.push_template(danger.words())?;
        out.push_template("</b>")?;
        open = ", <b>";
    }
    Ok(())
}
