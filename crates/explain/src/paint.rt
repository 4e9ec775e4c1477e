//! Shows a line on a terminal: its pieces, coloured if wanted, with their names underneath, or a caret under the fault.
//!
//! If a line has more than 200 columns, only the ends of its pieces are shown.

pub mod marks;
mod names;
pub mod short;

use crate::paint::names::{NO_SPAN, Span, part_touching, span_of, write_names};
use crate::paint::short::{INDENT, Keep, is_long, write_kept};
use explain_report::text::cut::{Cut, PIECES, Part, Piece};
use explain_report::text::line::is_hidden;
use std::alloc::AllocError;

/// Whether colours are shown.
#[derive(Clone, Copy)]
pub enum Colors {
    On,
    Off,
}

/// The escape sequence that ends a colour.
pub(crate) const PLAIN: &str = "\x1b[0m";

/// The colour of dangers and of carets.
pub(crate) const DANGER: &str = "\x1b[1;31m";

/// Whether colours are shown if the command line doesn't say it: on a terminal that isn't `dumb`, if `NO_COLOR` is
/// unset or empty.
pub fn is_colored(is_terminal: bool, no_color: Option<&[u8]>, term: Option<&[u8]>) -> bool {
    let is_wanted = match no_color {
        None => true,
        Some(word) => word.is_empty(),
    };
    let is_able = match term {
        None => false,
        Some(name) => name != b"dumb".as_slice(),
    };
    is_terminal && is_wanted && is_able
}

/// Appends the line alone, or nothing if it is empty.
pub fn line(out: &mut String, cut: &Cut<'_>, colors: Colors) -> Result<(), AllocError> {
    if is_empty(cut) {
        return Ok(());
    }
    let mut spans = [NO_SPAN; PIECES];
    write_pieces(out, cut, colors, &mut spans)
}

/// Whether the line has no byte.
pub(crate) fn is_empty(cut: &Cut<'_>) -> bool {
    cut.pieces().iter().all(|piece| piece.len() == 0)
}

/// Appends the line, and below it the names of its pieces.
pub fn named(out: &mut String, cut: &Cut<'_>, colors: Colors) -> Result<(), AllocError> {
    let mut spans = [NO_SPAN; PIECES];
    write_pieces(out, cut, colors, &mut spans)?;
    write_names(out, &spans)
}

/// Appends the line, and stores the columns of its named pieces.
fn write_pieces(
    out: &mut String,
    cut: &Cut<'_>,
    colors: Colors,
    spans: &mut [Span; PIECES],
) -> Result<(), AllocError> {
    let (is_long, is_command) = (is_long(cut), runs_command(cut));
    let mut column = 0usize;
    out.push_str(INDENT)?;
    for (index, piece) in cut.pieces().iter().enumerate() {
        let (color, keep) = (color(piece, is_command), is_long.then_some(Keep::Both));
        let taken = write_part(out, piece.shown(), keep, color, colors)?;
        if let Some(span) = spans.get_mut(index) {
            *span = span_of(piece, column, taken);
        }
        column = column.saturating_add(taken);
    }
    part_touching(spans);
    out.push('\n')
}

/// Whether the scheme or the helper is `ext`, which runs a command.
fn runs_command(cut: &Cut<'_>) -> bool {
    match cut.pieces().iter().find(|piece| 0 < piece.len()) {
        Some(first) => {
            is_program(first.part())
                && first.shown().starts_with(b"ext")
                && matches!(first.shown(), [_, _, _] | [_, _, _, b':', ..])
        }
        None => false,
    }
}

/// Whether the piece names a program, or is an address whose helper names one.
fn is_program(part: Part) -> bool {
    matches!(part, Part::Scheme | Part::Helper | Part::Address)
}

/// Appends a text in a colour, shortened to the ends that `keep` names if it is too long. Returns the columns that it
/// takes.
fn write_part(
    out: &mut String,
    text: &[u8],
    keep: Option<Keep>,
    color: &str,
    colors: Colors,
) -> Result<usize, AllocError> {
    match colors {
        Colors::On if !color.is_empty() && !text.is_empty() => {
            out.push_str(color)?;
            let taken = write_kept(out, text, keep)?;
            out.push_str(PLAIN)?;
            Ok(taken)
        }
        Colors::On | Colors::Off => write_kept(out, text, keep),
    }
}

/// The colour of a piece.
fn color(piece: &Piece<'_>, is_command: bool) -> &'static str {
    let part = piece.part();
    if is_hidden(piece) || (is_command && is_program(part)) || is_option(piece) {
        return DANGER;
    }
    match part {
        Part::Scheme => "\x1b[36m",
        Part::User => "\x1b[33m",
        Part::Host => "\x1b[32m",
        Part::Port => "\x1b[35m",
        Part::Path => "\x1b[34m",
        Part::Query => "\x1b[95m",
        Part::Fragment => "\x1b[94m",
        Part::Helper => "\x1b[96m",
        Part::Address => "\x1b[92m",
        Part::Password | Part::Mark | Part::Unknown => "",
    }
}

/// Whether a piece begins as an option of a command does, also with an escape; a path may have a `/` before that.
fn is_option(piece: &Piece<'_>) -> bool {
    let text = match (piece.part(), piece.shown()) {
        (Part::Mark | Part::Query | Part::Fragment, _) => return false,
        (Part::Path, [b'/', rest @ ..]) => rest,
        (_, text) => text,
    };
    matches!(text, [b'-', ..] | [b'%', b'2', b'd' | b'D', ..])
}
