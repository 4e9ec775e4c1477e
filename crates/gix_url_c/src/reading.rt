//! The exports that return a location: one reads bytes, the other builds it from parts.
//!
//! With 102 only the numbers are reported. The problem is that of the error, and all 0 if the error has none.

ghost use Rattle.std.specs.Prelude.{◌≡◌, ◌≤◌, length};
ghost use Rattle.gix_url.specs.Location.{fields};
ghost use Rattle.c_values.specs.Answers.{ReportsBuilt, ReportsRead};
ghost use Rattle.c_values.specs.Codes.{UnlessMemory, UnlessNone, memory, no_problem};
ghost use Rattle.c_values.specs.Input.{IsNone, location_of};
ghost use Rattle.c_values.specs.Left.{LeavesLengths, LeavesProblem, LeavesBuffer};

use c_values::codes::{NO_LOCATION, Problem, no_problem};
use c_values::input::{PartBytes, location_of};
use c_values::output::PartLengths;
use c_values::reading::{of_parts, read, report};
use std::alloc::Global;

/// Reads the location that the bytes spell, by [`gix_url::UrlRef::parse_in`], and copies its parts to the buffer. It
/// allocates only if there are more than 256 bytes.
///
/// Returns 0; 1 if memory is refused; 2 to 6 if the bytes spell no location, with the problem; 102 if they spell one
/// and its parts don't fit in the buffer, with their lengths.
#[unsafe(no_mangle)]
pub extern "C" fn gix_url_c_read(
    alloc: Global,
    input: &[u8],
    built: &mut PartLengths,
    buffer: &mut [u8],
    reported: &mut Problem,
) -> u32
    ensures reported { UnlessMemory result (ReportsRead input.now built.new buffer.old buffer.new reported.new result) }
    ensures near { length input.now ≤ 256 → ¬ (result ≡ memory) }
    ensures buffer { LeavesBuffer result buffer.old buffer.new }
    ensures lengths { LeavesLengths result built.old built.new }
    ensures problem { LeavesProblem result no_problem reported.new }
{
    read(alloc, input, built, buffer, reported)
}

/// Writes the text of these parts and reads it again, by [`gix_url::Url::from_parts`], and copies the parts of the
/// location to the buffer. The spelling is ignored.
///
/// Returns 0; 1 if memory is refused; 2 to 8 if there is no location, with the problem, whose place is in the text of
/// the parts; 101 if the parts aren't a location; 102 if the parts of the result don't fit in the buffer, with their
/// lengths.
#[unsafe(no_mangle)]
pub extern "C" fn gix_url_c_from_parts(
    alloc: Global,
    passed: &PartBytes<'_>,
    built: &mut PartLengths,
    buffer: &mut [u8],
    reported: &mut Problem,
) -> u32
    ensures reported { let parts = fields (location_of passed.now) in
        UnlessNone result (IsNone passed.now)
        (UnlessMemory result (ReportsBuilt parts built.new buffer.old buffer.new reported.new result)) }
    ensures buffer { LeavesBuffer result buffer.old buffer.new }
    ensures lengths { LeavesLengths result built.old built.new }
    ensures problem { LeavesProblem result no_problem reported.new }
{
    match location_of(passed) {
        Some(parts) => report(of_parts(alloc, &parts), built, buffer, reported),
        None => {
            *reported = no_problem();
            NO_LOCATION
        }
    }
}
