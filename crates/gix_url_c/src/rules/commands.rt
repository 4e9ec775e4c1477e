//! The export for the words with which Git runs Secure Shell for a location. With 102 only the numbers are reported.

ghost use Rattle.std.specs.Prelude.{◌≡◌, ◌<◌, ◌⊎◌, None};
ghost use Rattle.git_rules.specs.SecureShell.{ssh_refusal};
ghost use Rattle.c_values.specs.Codes.{UnlessMemory, UnlessNone, memory};
ghost use Rattle.c_values.specs.Input.{IsNone, location_of};
ghost use Rattle.c_values.specs.Left.{LeavesLengths, LeavesBuffer};
ghost use Rattle.c_values.specs.WordNumbers.{IsNoRequest, ReportsWords, request_passed};

use c_values::codes::NO_LOCATION;
use c_values::input::{PartBytes, location_of};
use c_values::rules::commands::{RequestBytes, WordNumbers, request_of, write_command};
use std::alloc::Global;

/// Copies the words with which Git runs Secure Shell for the location to the buffer, and their lengths to `lengths`:
/// [`git_rules::ssh::ssh_command_for`].
///
/// Returns 0; 1 if memory is refused, which isn't asked for if there is no command; 101 if the parts aren't a location,
/// or a number of the request has no meaning; 102 if the words or the lengths don't fit.
#[unsafe(no_mangle)]
pub extern "C" fn gix_url_c_ssh_words(
    alloc: Global,
    passed: &PartBytes<'_>,
    request: &RequestBytes<'_>,
    built: &mut WordNumbers,
    buffer: &mut [u8],
    lengths: &mut [usize],
) -> u32
    ensures reported { UnlessNone result (IsNone passed.now ⊎ IsNoRequest request.now) (UnlessMemory result
        (ReportsWords (location_of passed.now) (request_passed request.now)
        built.new buffer.old buffer.new lengths.old lengths.new result)) }
    ensures buffer { LeavesBuffer result buffer.old buffer.new }
    ensures lengths { LeavesBuffer result lengths.old lengths.new }
    ensures numbers { LeavesLengths result built.old built.new }
    ensures allocates { (result ≡ memory) → ssh_refusal (request_passed request.now) (location_of passed.now) ≡ None }
{
    let Some(url) = location_of(passed) else {
        return NO_LOCATION;
    };
    match request_of(request) {
        Some(request) => write_command(alloc, &url, &request, built, buffer, lengths),
        None => NO_LOCATION,
    }
}
