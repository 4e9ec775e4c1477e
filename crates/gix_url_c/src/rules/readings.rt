//! The exports for Git's readings of a text: by one of its transports, and by its credential code. With 102
//! only the numbers are reported.

ghost use Rattle.c_values.specs.Codes.{UnlessMemory};
ghost use Rattle.c_values.specs.Left.{LeavesLengths, LeavesBuffer};
ghost use Rattle.c_values.specs.ReadingNumbers.{ReportsPlace, ReportsRequest, no_request};

use c_values::codes::{MEMORY, OK};
use c_values::rules::readings::{
    PlaceNumbers, RequestNumbers, no_request, tell_unread, write_place, write_request,
};
use gix_url::{credential, transport};
use std::alloc::Global;

/// Copies the parts of the place that one of Git's transports reads in a text to the buffer:
/// [`gix_url::transport::reading`].
///
/// Returns 0; 1 if memory is refused; 102 if the parts don't fit.
#[unsafe(no_mangle)]
pub extern "C" fn gix_url_c_git_reading(
    alloc: Global,
    text: &[u8],
    built: &mut PlaceNumbers,
    buffer: &mut [u8],
) -> u32
    ensures reported { UnlessMemory result (ReportsPlace text.now built.new buffer.old buffer.new result) }
    ensures buffer { LeavesBuffer result buffer.old buffer.new }
    ensures numbers { LeavesLengths result built.old built.new }
{
    let mut buffers = transport::Buffers::new(alloc);
    match transport::reading(text, &mut buffers) {
        Ok(place) => write_place(alloc, &place, built, buffer),
        Err(why) => tell_unread(why, built),
    }
}

/// Copies the parts of the request that Git's credential code reads in a text to the buffer:
/// [`gix_url::credential::reading`].
///
/// Returns 0; 1 if memory is refused; 102 if the parts don't fit.
#[unsafe(no_mangle)]
pub extern "C" fn gix_url_c_credential_reading(
    alloc: Global,
    text: &[u8],
    built: &mut RequestNumbers,
    buffer: &mut [u8],
) -> u32
    ensures reported { UnlessMemory result (ReportsRequest text.now built.new buffer.old buffer.new result) }
    ensures buffer { LeavesBuffer result buffer.old buffer.new }
    ensures numbers { LeavesLengths result built.old built.new }
{
    let mut buffers = credential::Buffers::new(alloc);
    match credential::reading(text, &mut buffers) {
        Ok(Some(request)) => write_request(alloc, &request, built, buffer),
        Ok(None) => {
            *built = no_request();
            OK
        }
        Err(_) => MEMORY,
    }
}
