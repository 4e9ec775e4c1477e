//! The names of pieces below a line.
//!
//! The layout is that of compilers: each name begins at the column of its piece, in the first row that has space for
//! it, with `|` in the rows above.

use crate::paint::short::{INDENT, fill};
use explain_report::text::cut::{PIECES, Part, Piece};
use std::alloc::AllocError;

/// The columns that a named piece takes.
#[derive(Clone, Copy)]
pub(crate) struct Span {
    pub(crate) name: &'static str,
    pub(crate) from: usize,
    pub(crate) columns: usize,
}

/// No columns.
pub(crate) const NO_SPAN: Span = Span {
    name: "",
    from: 0,
    columns: 0,
};

/// Appends lines under the pieces that have names, and the names below them.
pub(crate) fn write_names(out: &mut String, spans: &[Span; PIECES]) -> Result<(), AllocError> {
    if spans.iter().all(|span| span.columns == 0) {
        return Ok(());
    }
    underline(out, spans)?;
    names(out, spans)
}

/// The columns of a piece, if it has a name.
pub(crate) fn span_of(piece: &Piece<'_>, from: usize, columns: usize) -> Span {
    match name(piece.part()) {
        Some(name) => Span {
            name,
            from,
            columns,
        },
        None => NO_SPAN,
    }
}

/// Leaves a column between adjacent pieces, if the second one takes more than one.
pub(crate) fn part_touching(spans: &mut [Span; PIECES]) {
    let mut end = None;
    for span in spans.iter_mut() {
        if span.columns == 0 {
            continue;
        }
        if end == Some(span.from) && 1 < span.columns {
            span.from = span.from.saturating_add(1);
            span.columns -= 1;
        }
        end = Some(span.from.saturating_add(span.columns));
    }
}

/// Appends the row of lines under named pieces.
fn underline(out: &mut String, spans: &[Span; PIECES]) -> Result<(), AllocError> {
    let mut column = 0usize;
    out.push_str(INDENT)?;
    for span in spans {
        if 0 < span.columns {
            column = fill(out, column, span.from, ' ')?;
            column = fill(out, column, span.from.saturating_add(span.columns), '-')?;
        }
    }
    out.push('\n')
}

/// Appends the rows of names.
fn names(out: &mut String, spans: &[Span; PIECES]) -> Result<(), AllocError> {
    let rows = rows_of(spans);
    for row in 0..PIECES {
        if rows.iter().all(|it| *it < row) {
            break;
        }
        names_in(out, spans, &rows, row)?;
    }
    Ok(())
}

/// Appends a row of names, with a `|` for each name of a later row.
fn names_in(
    out: &mut String,
    spans: &[Span; PIECES],
    rows: &[usize; PIECES],
    row: usize,
) -> Result<(), AllocError> {
    let mut column = 0usize;
    out.push_str(INDENT)?;
    for (span, own) in spans.iter().zip(rows.iter()) {
        if span.columns == 0 || *own < row {
            continue;
        }
        let text = if *own == row { span.name } else { "|" };
        column = fill(out, column, span.from, ' ')?.saturating_add(text.len());
        out.push_str(text)?;
    }
    out.push('\n')
}

/// The row of each name. The last name is placed first.
fn rows_of(spans: &[Span; PIECES]) -> [usize; PIECES] {
    let mut rows = [0; PIECES];
    let mut taken = [usize::MAX; PIECES];
    for index in (0..PIECES).rev() {
        if 0 < spans[index].columns {
            rows[index] = row_for(spans[index], &mut taken);
        }
    }
    rows
}

/// The first row in which a name fits before the columns that are taken in it. Takes the name's column in all rows up
/// to that one.
fn row_for(span: Span, taken: &mut [usize; PIECES]) -> usize {
    let end = span.from.saturating_add(span.name.len());
    for (row, next) in taken.iter_mut().enumerate() {
        let fits = end < *next;
        *next = span.from;
        if fits {
            return row;
        }
    }
    PIECES
}

/// The name of a piece's part.
fn name(part: Part) -> Option<&'static str> {
    match part {
        Part::Scheme => Some("scheme"),
        Part::User => Some("user"),
        Part::Password => Some("password"),
        Part::Host => Some("host"),
        Part::Port => Some("port"),
        Part::Path => Some("path"),
        Part::Query => Some("query"),
        Part::Fragment => Some("fragment"),
        Part::Helper => Some("helper"),
        Part::Address => Some("address"),
        Part::Mark | Part::Unknown => None,
    }
}
