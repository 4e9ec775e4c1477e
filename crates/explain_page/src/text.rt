//! The cell with a line's text: the pieces of a location, or another line with its fault marked.
//!
//! A long text is in slices, so that a browser formats only those in view.

use crate::markup::Markup;
use explain_report::refusal::Refusal;
use explain_report::text::cut::{Part, Piece};
use explain_report::text::line::{SeenLine, halves, is_hidden, write_shown};
use std::alloc::{AllocError, Global};

/// The largest number of bytes in a slice of a long text, which ends after a whole character. A text is long from
/// `SHORT` bytes on.
const SLICE: usize = 2000;

const SHORT: usize = 4000;

/// Bytes of a line, counted from the start of a piece.
#[derive(Clone, Copy)]
struct Region {
    at: usize,
    len: usize,
}

/// Appends the rest of the cell of a location: for each piece a letter and its number of characters, then the text.
pub fn push_parts(alloc: Global, out: &mut Markup, seen: &SeenLine<'_>) -> Result<(), AllocError> {
    out.push_template(" data-p=\"")?;
    for piece in seen.cut.pieces() {
        if 0 < piece.len() {
            out.push_template(letter(piece.part()))?;
            out.push_value(characters(alloc, piece.shown())?)?;
        }
    }
    out.push_template("\">")?;
    for piece in seen.cut.pieces() {
        push_sliced(out, piece.shown())?;
    }
    Ok(())
}

/// Appends the rest of the cell of another line, with its fault marked if the span of the fault is known.
pub fn push_refused(
    out: &mut Markup,
    seen: &SeenLine<'_>,
    refusal: &Refusal,
) -> Result<(), AllocError> {
    out.push_template(">")?;
    let mut left = match (refusal.at, refusal.len) {
        (Some(at), Some(len)) => Some(Region { at, len }),
        _ => None,
    };
    for piece in seen.cut.pieces() {
        if 0 < piece.len() {
            push_marked(out, piece, left)?;
            left = left.and_then(|region| suffix(region, piece.len()));
        }
    }
    if left.is_some() {
        out.push_template("<mark></mark>")?;
    }
    Ok(())
}

/// The rest of a region after a piece of this length, if there is one. The rest of an empty region is its place.
fn suffix(region: Region, len: usize) -> Option<Region> {
    let inside = len.saturating_sub(region.at).min(region.len);
    if region.at < len && inside == region.len {
        return None;
    }
    Some(Region {
        at: region.at.saturating_sub(len),
        len: region.len.saturating_sub(inside),
    })
}

/// Appends a piece as it is shown, with a mark around the part of it that is in the region.
fn push_marked(
    out: &mut Markup,
    piece: &Piece<'_>,
    region: Option<Region>,
) -> Result<(), AllocError> {
    match region {
        Some(region) if region.at < piece.len() => {
            let (before, inside, rest) = parts(piece, region);
            push_sliced(out, before)?;
            out.push_template("<mark>")?;
            push_sliced(out, inside)?;
            out.push_template("</mark>")?;
            push_sliced(out, rest)
        }
        _ => push_sliced(out, piece.shown()),
    }
}

/// The parts of a piece as it is shown: before the region, in it and after it. A hidden piece is in the region as a
/// whole.
fn parts<'a>(piece: &Piece<'a>, region: Region) -> (&'a [u8], &'a [u8], &'a [u8]) {
    let shown = piece.shown();
    if is_hidden(piece) {
        return if region.len == 0 {
            (b"", b"", shown)
        } else {
            (b"", shown, b"")
        };
    }
    let (before, from) = halves(shown, region.at);
    let (inside, rest) = halves(from, region.len);
    (before, inside, rest)
}

/// Appends a text as it is shown, in slices if it is long.
fn push_sliced(out: &mut Markup, text: &[u8]) -> Result<(), AllocError> {
    if text.len() < SHORT {
        return out.push_shown(text);
    }
    let mut left = text;
    for _turn in 0..=text.len() / SLICE {
        if left.is_empty() {
            break;
        }
        let (slice, rest) = halves(left, SLICE);
        out.push_template("<span>")?;
        out.push_shown(slice)?;
        out.push_template("</span>")?;
        left = rest;
    }
    out.push_shown(left)
}

/// The number of characters in a text as it is shown.
fn characters(alloc: Global, text: &[u8]) -> Result<usize, AllocError> {
    let mut shown = String::new(alloc);
    write_shown(&mut shown, text)?;
    let count = shown.as_str().chars().count();
    drop(shown);
    Ok(count)
}

/// The letter for a kind of piece.
fn letter(part: Part) -> &'static str {
    match part {
        Part::Scheme => "s",
        Part::User => "u",
        Part::Password => "w",
        Part::Host => "h",
        Part::Port => "o",
        Part::Path => "p",
        Part::Query => "q",
        Part::Fragment => "f",
        Part::Helper => "e",
        Part::Address => "a",
        Part::Mark | Part::Unknown => ".",
    }
}
