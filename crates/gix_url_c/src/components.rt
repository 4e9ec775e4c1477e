//! The export that splits the path of a location into path, query and fragment.

ghost use Rattle.c_values.specs.Codes.{UnlessMemory, UnlessNone};
ghost use Rattle.c_values.specs.Input.{IsNone, location_of};
ghost use Rattle.c_values.specs.Left.{LeavesLengths, LeavesBuffer};
ghost use Rattle.c_values.specs.ComponentNumbers.{ReportsComponents};

use c_values::codes::NO_LOCATION;
use c_values::components::{ComponentNumbers, part};
use c_values::input::{PartBytes, location_of};
use std::alloc::Global;

/// Copies the components of the path to the buffer: the path, the fragment, and then each name and its value. The
/// lengths of names and values, in turn, go to `lengths`. See [`gix_url::UrlRef::path_query_fragment`].
///
/// Returns 0; 1 if memory is refused; 101 if the parts aren't a location; 102 if the bytes or the lengths don't fit.
/// With 102 the numbers are reported.
#[unsafe(no_mangle)]
pub extern "C" fn gix_url_c_components(
    alloc: Global,
    passed: &PartBytes<'_>,
    reported: &mut ComponentNumbers,
    buffer: &mut [u8],
    lengths: &mut [usize],
) -> u32
    ensures reported { UnlessNone result (IsNone passed.now)
        (UnlessMemory result
        (ReportsComponents (location_of passed.now) reported.new buffer.old buffer.new lengths.old lengths.new result)) }
    ensures buffer { LeavesBuffer result buffer.old buffer.new }
    ensures lengths { LeavesBuffer result lengths.old lengths.new }
    ensures numbers { LeavesLengths result reported.old reported.new }
{
    match location_of(passed) {
        Some(url) => part(alloc, &url, reported, buffer, lengths),
        None => NO_LOCATION,
    }
}
