//! The text of a location, and the text as it is displayed, in the caller's buffer.
//!
//! With 102 only the length is reported. The problem is the fault with 8, and otherwise all 0.

ghost use Rattle.std.specs.Prelude.{◌≡◌, if◌then◌else◌, nat_lt};
ghost use Rattle.gix_url.specs.Text.{text};
ghost use Rattle.c_values.specs.Answers.{HasText, ReportsDisplay, ReportsText, reported_length};
ghost use Rattle.c_values.specs.Codes.{UnlessMemory, memory, no_room, ok};
ghost use Rattle.c_values.specs.Left.{LeavesLengths, LeavesProblem, LeavesBuffer};

use crate::buffer::write_text;
use crate::codes::{MEMORY, NO_ROOM, OK, Problem, UNWRITABLE, unwritable};
use gix_url::UrlRef;
use std::alloc::Global;

/// Copies the text of the location to the buffer.
pub fn write(url: &UrlRef<'_>, buffer: &mut [u8], len: &mut usize, reported: &mut Problem) -> u32
    ensures reported { ReportsText (text url.now) buffer.old buffer.new len.new reported.new result }
    ensures buffer { LeavesBuffer result buffer.old buffer.new }
    ensures length { LeavesLengths result len.old len.new }
    ensures problem { LeavesProblem result reported.old reported.new }
    ensures no_memory { ¬ (result ≡ memory) }
{
    let size = buffer.len();
    match url.write_into(buffer) {
        Ok(length) => report_length(length, size, len),
        Err(fault) => {
            *reported = unwritable(fault);
            UNWRITABLE
        }
    }
}

/// Reports the length of a text, and returns whether it fits in a buffer of this size.
fn report_length(length: u128, size: usize, len: &mut usize) -> u32
    ensures length { len.new ≡ reported_length length }
    ensures code { result ≡ (if nat_lt size length then no_room else ok) }
{
    *len = usize::try_from(length).unwrap_or(usize::MAX);
    if (size as u128) < length { NO_ROOM } else { OK }
}

/// Copies the shown text of the location to the buffer.
pub fn show(
    alloc: Global,
    url: &UrlRef<'_>,
    buffer: &mut [u8],
    len: &mut usize,
    reported: &mut Problem,
) -> u32
    ensures reported { UnlessMemory result (ReportsDisplay url.now buffer.old buffer.new len.new reported.new result) }
    ensures buffer { LeavesBuffer result buffer.old buffer.new }
    ensures length { LeavesLengths result len.old len.new }
    ensures problem { LeavesProblem result reported.old reported.new }
    ensures allocates { (result ≡ memory) → HasText url.now }
{
    if let Err(fault) = url.text_len() {
        *reported = unwritable(fault);
        return UNWRITABLE;
    }
    match url.to_string(alloc) {
        Ok(shown) => write_text(shown.as_bytes(), buffer, len),
        Err(_) => MEMORY,
    }
}
