//! A refused line, with a caret under the fault.

use crate::paint::short::{INDENT, Keep, fill, is_long, write_kept};
use crate::paint::{Colors, DANGER, PLAIN, is_empty};
use explain_report::text::cut::{Cut, Piece};
use explain_report::text::line::{halves, is_hidden};
use std::alloc::AllocError;

/// The columns of some bytes of a line.
#[derive(Clone, Copy)]
struct Marked {
    from: Option<usize>,
    columns: usize,
}

/// The bytes of a line that are marked.
#[derive(Clone, Copy)]
struct Region {
    at: usize,
    len: usize,
}

/// Appends the line, and below it a caret under the byte `at` with a line under the rest of the `len` bytes. If the
/// byte is in a hidden piece, the caret is under the word for that. Appends nothing for an empty line.
pub fn caret(
    out: &mut String,
    cut: &Cut<'_>,
    at: usize,
    len: usize,
    colors: Colors,
) -> Result<(), AllocError> {
    if is_empty(cut) {
        return Ok(());
    }
    let marked = write_marked(out, cut, Region { at, len })?;
    out.push_str(INDENT)?;
    let column = fill(out, 0, marked.from.unwrap_or(0), ' ')?;
    if matches!(colors, Colors::On) {
        out.push_str(DANGER)?;
    }
    out.push('^')?;
    fill(
        out,
        column.saturating_add(1),
        column.saturating_add(marked.columns),
        '~',
    )?;
    if matches!(colors, Colors::On) {
        out.push_str(PLAIN)?;
    }
    out.push('\n')
}

/// Appends the line, and returns the columns of the region.
fn write_marked(out: &mut String, cut: &Cut<'_>, region: Region) -> Result<Marked, AllocError> {
    let is_long = is_long(cut);
    let mut marked = Marked {
        from: None,
        columns: 0,
    };
    let (mut place, mut column) = (0usize, 0usize);
    out.push_str(INDENT)?;
    for piece in cut.pieces() {
        let own = Region {
            at: region.at.saturating_sub(place),
            len: region.len.saturating_sub(place.saturating_sub(region.at)),
        };
        let is_before = region.at < place;
        column = column.saturating_add(if is_hidden(piece) {
            write_hidden(out, piece, own, is_before, column, &mut marked)?
        } else {
            write_open(out, piece, own, is_long, column, &mut marked)?
        });
        place = place.saturating_add(piece.len());
    }
    if marked.from.is_none() {
        marked.from = Some(column);
    }
    out.push('\n')?;
    Ok(marked)
}

/// Appends a piece, and marks its part that is in the region.
fn write_open(
    out: &mut String,
    piece: &Piece<'_>,
    own: Region,
    is_long: bool,
    column: usize,
    marked: &mut Marked,
) -> Result<usize, AllocError> {
    let (before, rest) = halves(piece.shown(), own.at);
    let (inside, suffix) = halves(rest, own.len);
    let before = write_kept(out, before, is_long.then_some(Keep::End))?;
    let inside = write_kept(out, inside, is_long.then_some(Keep::Both))?;
    let suffix = write_kept(out, suffix, is_long.then_some(Keep::Front))?;
    if own.at < piece.len() && marked.from.is_none() {
        marked.from = Some(column.saturating_add(before));
    }
    marked.columns = marked.columns.saturating_add(inside);
    Ok(before.saturating_add(inside).saturating_add(suffix))
}

/// Appends the word for a hidden piece, and marks it if the region has a byte of the piece.
fn write_hidden(
    out: &mut String,
    piece: &Piece<'_>,
    own: Region,
    is_before: bool,
    column: usize,
    marked: &mut Marked,
) -> Result<usize, AllocError> {
    let taken = write_kept(out, piece.shown(), None)?;
    let is_inside = own.at < piece.len() && (!is_before || 0 < own.len);
    if is_inside {
        if marked.from.is_none() {
            marked.from = Some(column);
        }
        if 0 < own.len {
            marked.columns = marked.columns.saturating_add(taken);
        }
    }
    Ok(taken)
}
