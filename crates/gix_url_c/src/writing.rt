//! The exports for the text of a location: whether it is settled, whether Git reads the same fields in it, the first
//! condition that it doesn't meet, the text, and the text as it is displayed.
//!
//! With 102 only the length is reported. The problem is the fault with 8, and otherwise all 0.

ghost use Rattle.std.specs.Prelude.{◌≡◌};
ghost use Rattle.gix_url.specs.Text.{text};
ghost use Rattle.c_values.specs.Answers.{HasText, ReportsAgreement, ReportsCondition, ReportsDisplay, ReportsSettled, ReportsText};
ghost use Rattle.c_values.specs.Codes.{UnlessMemory, UnlessNone, memory, no_problem};
ghost use Rattle.c_values.specs.Input.{IsNone, location_of};
ghost use Rattle.c_values.specs.Left.{LeavesLengths, LeavesProblem, LeavesBuffer};

use c_values::codes::{NO_LOCATION, OK, Problem, condition_reported, no_problem};
use c_values::input::{PartBytes, location_of};
use c_values::writing::{show, write};
use gix_url::agrees_with_git;
use gix_url::unambiguous::unmet_condition;
use std::alloc::Global;

/// Reports whether the location is settled: [`gix_url::UrlRef::is_settled`].
///
/// Returns 0, or 101 if the parts aren't a location.
#[unsafe(no_mangle)]
pub extern "C" fn gix_url_c_is_settled(passed: &PartBytes<'_>, settled: &mut bool) -> u32
    ensures reported { UnlessNone result (IsNone passed.now)
        (ReportsSettled (location_of passed.now) settled.new result) }
    ensures left { LeavesBuffer result settled.old settled.new }
    ensures no_memory { ¬ (result ≡ memory) }
{
    match location_of(passed) {
        Some(url) => {
            *settled = url.is_settled();
            OK
        }
        None => NO_LOCATION,
    }
}

/// Reports whether Git is known to read the location's own fields in its text:
/// [`gix_url::agrees_with_git`].
///
/// Returns 0, or 101 if the parts aren't a location.
#[unsafe(no_mangle)]
pub extern "C" fn gix_url_c_agrees_with_git(passed: &PartBytes<'_>, agrees: &mut bool) -> u32
    ensures reported { UnlessNone result (IsNone passed.now)
        (ReportsAgreement (location_of passed.now) agrees.new result) }
    ensures left { LeavesBuffer result agrees.old agrees.new }
    ensures no_memory { ¬ (result ≡ memory) }
{
    match location_of(passed) {
        Some(url) => {
            *agrees = agrees_with_git(&url);
            OK
        }
        None => NO_LOCATION,
    }
}

/// Reports the first condition of an unambiguous text that the location doesn't meet:
/// [`gix_url::unambiguous::unmet_condition`]. The number is 1 to 11, in the order of
/// [`gix_url::unambiguous::Condition`], and 0 if the location meets all.
///
/// Returns 0, or 101 if the parts aren't a location.
#[unsafe(no_mangle)]
pub extern "C" fn gix_url_c_unmet_condition(passed: &PartBytes<'_>, unmet: &mut u8) -> u32
    ensures reported { UnlessNone result (IsNone passed.now)
        (ReportsCondition (location_of passed.now) unmet.new result) }
    ensures left { LeavesBuffer result unmet.old unmet.new }
    ensures no_memory { ¬ (result ≡ memory) }
{
    match location_of(passed) {
        Some(url) => {
            *unmet = condition_reported(unmet_condition(&url));
            OK
        }
        None => NO_LOCATION,
    }
}

/// Copies the text of the location to the buffer, and reports its length: [`gix_url::UrlRef::write_into`]. A length
/// above the largest `usize` is reported as that.
///
/// Returns 0; 8 if there is no text, with the fault; 101 if the parts aren't a location; 102 if the text doesn't fit.
#[unsafe(no_mangle)]
pub extern "C" fn gix_url_c_write(
    passed: &PartBytes<'_>,
    buffer: &mut [u8],
    len: &mut usize,
    reported: &mut Problem,
) -> u32
    ensures reported { UnlessNone result (IsNone passed.now)
        (ReportsText (text (location_of passed.now)) buffer.old buffer.new len.new reported.new result) }
    ensures buffer { LeavesBuffer result buffer.old buffer.new }
    ensures length { LeavesLengths result len.old len.new }
    ensures problem { LeavesProblem result no_problem reported.new }
    ensures no_memory { ¬ (result ≡ memory) }
{
    *reported = no_problem();
    match location_of(passed) {
        Some(url) => write(&url, buffer, len, reported),
        None => NO_LOCATION,
    }
}

/// Copies the text that the `Display` of [`gix_url::UrlRef`] writes, with `redacted` in place of the
/// password, to the buffer, and reports its length.
///
/// Returns 0; 1 if memory is refused, which isn't asked for if the location has no text; 8 if it has none, with the
/// fault; 101 if the parts aren't a location; 102 if the text doesn't fit.
#[unsafe(no_mangle)]
pub extern "C" fn gix_url_c_display(
    alloc: Global,
    passed: &PartBytes<'_>,
    buffer: &mut [u8],
    len: &mut usize,
    reported: &mut Problem,
) -> u32
    ensures reported { UnlessNone result (IsNone passed.now)
        (UnlessMemory result
        (ReportsDisplay (location_of passed.now) buffer.old buffer.new len.new reported.new result)) }
    ensures buffer { LeavesBuffer result buffer.old buffer.new }
    ensures length { LeavesLengths result len.old len.new }
    ensures problem { LeavesProblem result no_problem reported.new }
    ensures allocates { (result ≡ memory) → HasText (location_of passed.now) }
{
    *reported = no_problem();
    match location_of(passed) {
        Some(url) => show(alloc, &url, buffer, len, reported),
        None => NO_LOCATION,
    }
}
