//! The page that `--html` writes: the template, filled with a row and an object for each line.
//!
//! The rows of dangerous lines come first, and those of lines without findings last. They are in groups, so that a
//! browser formats only those in view.

use crate::markup::Markup;
use crate::row::Row;
use crate::template::{PAGE, Part, Slot};
use explain_report::advice::hint::Hint;
use explain_report::finding::Findings;
use gix_url::lines::RunError;
use std::alloc::{AllocError, Global};
use std::io::Write;

/// The approximate number of bytes in a group of rows.
const GROUP: usize = 40_000;

/// The rows and the objects of the lines so far.
#[derive(Drop)]
pub struct Page {
    alloc: Global,
    lines: u64,
    dangerous_lines: u64,
    dangerous: Markup,
    found: Markup,
    plain: Markup,
    objects: Markup,
}

impl Page {
    /// Returns a page without lines.
    pub fn new(alloc: Global) -> Page {
        Page {
            alloc,
            lines: 0,
            dangerous_lines: 0,
            dangerous: Markup::new(alloc),
            found: Markup::new(alloc),
            plain: Markup::new(alloc),
            objects: Markup::new(alloc),
        }
    }

    /// Adds the row of the next line, and its object, which ends with a line feed.
    pub fn add(&mut self, row: &Row<'_, '_>, object: &str) -> Result<(), AllocError> {
        if 0 < self.lines {
            self.objects.push_template(",")?;
        }
        self.objects.push_json(object)?;
        self.lines = self.lines.saturating_add(1);
        if row.found.danger {
            self.dangerous_lines = self.dangerous_lines.saturating_add(1);
        }
        let alloc = self.alloc;
        let out = self.rows_of(row.found);
        let before = out.as_bytes().len();
        row.push(alloc, out)?;
        group(out, before)
    }

    /// The rows of the lines with such findings.
    fn rows_of(&mut self, found: Findings) -> &mut Markup {
        if found.danger {
            &mut self.dangerous
        } else if found.meets(Findings::all()) {
            &mut self.found
        } else {
            &mut self.plain
        }
    }

    /// Writes the page with this title.
    pub fn write<W: Write>(&self, title: &str, output: &mut W) -> Result<(), RunError> {
        for part in PAGE.as_slice() {
            match part {
                Part::Text(text) => put(output, text.as_bytes())?,
                Part::Slot(slot) => self.write_slot(*slot, title, output)?,
            }
        }
        Ok(())
    }

    /// Writes the text of a slot.
    fn write_slot<W: Write>(
        &self,
        slot: Slot,
        title: &str,
        output: &mut W,
    ) -> Result<(), RunError> {
        match slot {
            Slot::Rows => {
                write_rows(output, &self.dangerous)?;
                write_rows(output, &self.found)?;
                write_rows(output, &self.plain)
            }
            Slot::Data => put(output, self.objects.as_bytes()),
            _ => {
                let mut out = Markup::new(self.alloc);
                let filled = self.fill(slot, title, &mut out);
                let written = match filled {
                    Ok(()) => put(output, out.as_bytes()),
                    Err(_) => Err(RunError::Memory),
                };
                drop(out);
                written
            }
        }
    }

    /// Appends the text of a slot other than those of the rows and the objects.
    fn fill(&self, slot: Slot, title: &str, out: &mut Markup) -> Result<(), AllocError> {
        match slot {
            Slot::Title => out.push_shown(title.as_bytes()),
            Slot::Lines => out.push_value(self.lines),
            Slot::Dangerous => out.push_value(self.dangerous_lines),
            Slot::Hints => push_hints(out),
            Slot::Rows | Slot::Data => Ok(()),
        }
    }
}

/// Appends all hints in words, each with its name.
fn push_hints(out: &mut Markup) -> Result<(), AllocError> {
    for hint in Hint::ALL.as_slice() {
        out.push_template("<p id=")?;
        out.push_template(hint.name())?;
        out.push_template(">")?;
        out.push_text(hint.sentence())?;
    }
    Ok(())
}

/// Ends a group of rows if the last row, before which `out` had `before` bytes, reaches the next multiple of `GROUP`.
fn group(out: &mut Markup, before: usize) -> Result<(), AllocError> {
    if out.as_bytes().len() / GROUP == before / GROUP {
        return Ok(());
    }
    out.push_template("</tbody><tbody>")
}

/// Writes rows, if there are any.
fn write_rows<W: Write>(output: &mut W, rows: &Markup) -> Result<(), RunError> {
    if rows.as_bytes().is_empty() {
        return Ok(());
    }
    put(output, b"<tbody>")?;
    put(output, rows.as_bytes())?;
    put(output, b"</tbody>\n")
}

/// Writes bytes.
fn put<W: Write>(output: &mut W, bytes: &[u8]) -> Result<(), RunError> {
    output.write_all(bytes).map_err(RunError::Write)
}
