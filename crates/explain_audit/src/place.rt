//! The columns of an entry in its line.
//!
//! A column is a character. Bytes that aren't UTF-8 are counted as bstr decodes them. A byte order mark at the start of
//! a text isn't counted.

use bstr::ByteSlice;

/// The columns of an entry in its line, from 1.
#[derive(Clone, Copy)]
pub struct Columns {
    /// The column of its first character.
    pub start: usize,
    /// The column after the end of its line.
    pub end: usize,
}

/// Returns the columns from an offset of a text to the end of its line.
pub fn columns_at(text: &[u8], at: usize) -> Columns {
    let (front, rest) = text.split_at(at.min(text.len()));
    let before = match front.rfind_byte(b'\n') {
        None => without_mark(front),
        Some(end) => after(front, end),
    };
    let line = match rest.find_byte(b'\n') {
        None => rest,
        Some(end) => rest.split_at(end).0,
    };
    let start = count(before).saturating_add(1);
    Columns {
        start,
        end: start.saturating_add(count(without_return(line))),
    }
}

/// The text after the byte at an offset.
fn after(text: &[u8], place: usize) -> &[u8] {
    match text.get(place.saturating_add(1)..) {
        Some(rest) => rest,
        None => b"",
    }
}

/// The text without a byte order mark at its start.
fn without_mark(text: &[u8]) -> &[u8] {
    match text {
        [0xef, 0xbb, 0xbf, rest @ ..] => rest,
        _ => text,
    }
}

/// The line without a carriage return at its end.
fn without_return(line: &[u8]) -> &[u8] {
    match line {
        [front @ .., b'\r'] => front,
        _ => line,
    }
}

/// Returns the number of characters in a text.
pub fn count(text: &[u8]) -> usize {
    let mut sum = 0usize;
    for _character in text.chars() {
        sum = sum.saturating_add(1);
    }
    sum
}
