//! The export for the facts about a location that a command line needs, its original path and its port.

ghost use Rattle.std.specs.Prelude.{◌≡◌};
ghost use Rattle.c_values.specs.Codes.{UnlessNone, memory, ok};
ghost use Rattle.c_values.specs.Input.{IsNone, location_of};
ghost use Rattle.c_values.specs.Left.{LeavesBuffer};
ghost use Rattle.c_values.specs.SeenLocations.{IsSeenLocation};

use c_values::codes::{NO_LOCATION, OK};
use c_values::input::{PartBytes, location_of};
use c_values::looking::{Seen, look};

/// Reports the results of [`gix_url::UrlRef::user_as_argument`], [`gix_url::UrlRef::host_as_argument`],
/// [`gix_url::UrlRef::path_argument_safe`], [`gix_url::UrlRef::path_is_root`],
/// [`gix_url::UrlRef::original_path`] and [`gix_url::UrlRef::port_or_default`].
///
/// Returns 0, or 101 if the parts aren't a location.
#[unsafe(no_mangle)]
pub extern "C" fn gix_url_c_look(passed: &PartBytes<'_>, seen: &mut Seen) -> u32
    ensures reported { UnlessNone result (IsNone passed.now)
        ((result ≡ ok) × IsSeenLocation (location_of passed.now) seen.new) }
    ensures left { LeavesBuffer result seen.old seen.new }
    ensures no_memory { ¬ (result ≡ memory) }
{
    match location_of(passed) {
        Some(url) => {
            *seen = look(&url);
            OK
        }
        None => NO_LOCATION,
    }
}
