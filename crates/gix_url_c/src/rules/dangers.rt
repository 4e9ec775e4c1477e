//! The exports for dangers: those of a text and its location, and the name and the words of a danger.

ghost use Rattle.std.specs.Prelude.{None};
ghost use Rattle.git_audit.specs.Dangers.{danger_name, danger_words};
ghost use Rattle.c_values.specs.Codes.{UnlessMemory, UnlessNone};
ghost use Rattle.c_values.specs.DangerNumbers.{ReportsDangers, danger_number};
ghost use Rattle.c_values.specs.Input.{IsNone, location_of};
ghost use Rattle.c_values.specs.Left.{LeavesLengths, LeavesBuffer};
ghost use Rattle.c_values.specs.NumberedTexts.{PutsNumbered};

use c_values::buffer::write_text;
use c_values::codes::NO_LOCATION;
use c_values::input::{PartBytes, location_of};
use c_values::reasons::write_nothing;
use c_values::rules::dangers::{danger_numbered, write_dangers};
use std::alloc::Global;

/// Copies the numbers of the dangers of a text and its location to the buffer, one byte each, and reports how many
/// there are: [`git_audit::danger::dangers`]. The numbers are 1 to 10, in the order of [`git_audit::danger::Danger`].
///
/// Returns 0; 1 if memory is refused; 101 if the parts aren't a location; 102 if the numbers don't fit.
#[unsafe(no_mangle)]
pub extern "C" fn gix_url_c_dangers(
    alloc: Global,
    text: &[u8],
    passed: &PartBytes<'_>,
    buffer: &mut [u8],
    count: &mut usize,
) -> u32
    ensures reported { UnlessNone result (IsNone passed.now)
        (UnlessMemory result (ReportsDangers text.now (location_of passed.now) buffer.old buffer.new count.new result)) }
    ensures buffer { LeavesBuffer result buffer.old buffer.new }
    ensures count { LeavesLengths result count.old count.new }
{
    match location_of(passed) {
        Some(url) => write_dangers(alloc, text, &url, buffer, count),
        None => NO_LOCATION,
    }
}

/// Copies the name of the danger with this number to the buffer, and reports its length:
/// [`git_audit::danger::Danger::name`].
///
/// Returns 0; 101, with the length 0, if no danger has this number; 102 if the name doesn't fit.
#[unsafe(no_mangle)]
pub extern "C" fn gix_url_c_danger_name(danger: u8, buffer: &mut [u8], len: &mut usize) -> u32
    ensures reported { PutsNumbered danger_number danger_name danger buffer.old buffer.new len.new result }
    ensures buffer { LeavesBuffer result buffer.old buffer.new }
{
    match danger_numbered(danger) {
        Some(danger) => write_text(danger.name().as_bytes(), buffer, len),
        None => write_nothing(len),
    }
}

/// Copies the words of the danger with this number to the buffer, and reports their length:
/// [`git_audit::danger::Danger::words`].
///
/// Returns the numbers of [`gix_url_c_danger_name`].
#[unsafe(no_mangle)]
pub extern "C" fn gix_url_c_danger_words(danger: u8, buffer: &mut [u8], len: &mut usize) -> u32
    ensures reported { PutsNumbered danger_number danger_words danger buffer.old buffer.new len.new result }
    ensures buffer { LeavesBuffer result buffer.old buffer.new }
{
    match danger_numbered(danger) {
        Some(danger) => write_text(danger.words().as_bytes(), buffer, len),
        None => write_nothing(len),
    }
}
