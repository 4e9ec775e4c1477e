//! Shortens texts of a long line, and fills columns.

use explain_report::text::cut::Cut;
use explain_report::text::line::{columns, end, front, write_shown};
use std::alloc::AllocError;

/// The ends of a text that are kept if it is too long.
#[derive(Clone, Copy)]
pub(crate) enum Keep {
    Both,
    Front,
    End,
}

/// The text before each line.
pub(crate) const INDENT: &str = "    ";
/// The greatest number of columns of a line that isn't shortened.
const WIDEST: usize = 200;

/// How many columns are kept at an end of a text in a longer line.
const KEPT: usize = 30;

/// Whether the line is too long to be shown in full.
pub fn is_long(cut: &Cut<'_>) -> bool {
    let mut sum = 0usize;
    for piece in cut.pieces() {
        sum = sum.saturating_add(columns(piece.shown()));
    }
    WIDEST < sum
}

/// Appends a text, shortened to the ends that `keep` names if it is too long. Returns the columns that it takes.
pub(crate) fn write_kept(
    out: &mut String,
    text: &[u8],
    keep: Option<Keep>,
) -> Result<usize, AllocError> {
    let all = columns(text);
    let (head, tail) = match keep {
        Some(Keep::Both) if 2 * KEPT + 3 < all => (front(text, KEPT), end(text, KEPT)),
        Some(Keep::Front) if KEPT + 3 < all => (front(text, KEPT), b"".as_slice()),
        Some(Keep::End) if KEPT + 3 < all => (b"".as_slice(), end(text, KEPT)),
        _ => {
            write_shown(out, text)?;
            return Ok(all);
        }
    };
    write_shown(out, head)?;
    out.push_str("...")?;
    write_shown(out, tail)?;
    Ok(
        columns(head)
            .saturating_add(3)
            .saturating_add(columns(tail)),
    )
}

/// Appends a character up to a column, and returns that column.
pub(crate) fn fill(
    out: &mut String,
    column: usize,
    to: usize,
    character: char,
) -> Result<usize, AllocError> {
    for _column in column..to {
        out.push(character)?;
    }
    Ok(column.max(to))
}
