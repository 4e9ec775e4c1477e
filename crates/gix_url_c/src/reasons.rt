//! The exports for the table of reasons: the name of a reason, and its sentence.

ghost use Rattle.git_refusals.specs.Words.{reason_name, reason_words};
ghost use Rattle.c_values.specs.Codes.{reason_number};
ghost use Rattle.c_values.specs.Left.{LeavesBuffer};
ghost use Rattle.c_values.specs.NumberedTexts.{PutsNumbered};

use c_values::buffer::write_text;
use c_values::codes::reason_numbered;
use c_values::reasons::write_nothing;

/// Copies the name of the reason with this number to the buffer, and reports its length: [`gix_url::Reason::name`].
///
/// Returns 0; 101, with the length 0, if no reason has this number; 102 if the name doesn't fit.
#[unsafe(no_mangle)]
pub extern "C" fn gix_url_c_reason_name(reason: u8, buffer: &mut [u8], len: &mut usize) -> u32
    ensures reported { PutsNumbered reason_number reason_name reason buffer.old buffer.new len.new result }
    ensures buffer { LeavesBuffer result buffer.old buffer.new }
{
    match reason_numbered(reason) {
        Some(reason) => write_text(reason.name().as_bytes(), buffer, len),
        None => write_nothing(len),
    }
}

/// Copies the sentence of the reason with this number to the buffer, and reports its length:
/// [`gix_url::Reason::words`].
///
/// Returns the numbers of [`gix_url_c_reason_name`].
#[unsafe(no_mangle)]
pub extern "C" fn gix_url_c_reason_words(reason: u8, buffer: &mut [u8], len: &mut usize) -> u32
    ensures reported { PutsNumbered reason_number reason_words reason buffer.old buffer.new len.new result }
    ensures buffer { LeavesBuffer result buffer.old buffer.new }
{
    match reason_numbered(reason) {
        Some(reason) => write_text(reason.words().as_bytes(), buffer, len),
        None => write_nothing(len),
    }
}
