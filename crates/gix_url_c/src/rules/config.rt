//! The exports that read a configuration: the output of `git config --list -z`, or the text of a file. With 102 only
//! the sizes are reported.

ghost use Rattle.c_values.specs.Codes.{UnlessMemory};
ghost use Rattle.c_values.specs.EntryNumbers.{ReportsFile, ReportsListing};
ghost use Rattle.c_values.specs.Left.{LeavesLengths, LeavesBuffer};
ghost use Rattle.c_values.specs.Stops.{LeavesStop};

use c_values::rules::config::{EntrySizes, read_file, read_listing};
use c_values::rules::stops::Stop;
use std::alloc::Global;

/// Copies the parts of the entries of a listing to the buffer, and eight numbers for each entry to `numbers`: the
/// lengths of section, subsection, name and value, the place, the line, and whether there is a subsection and a
/// value. See [`git_rules::config::Reader`].
///
/// Returns 0; 1 if memory is refused; 102 if the parts or the numbers don't fit; 106 if a line of the text is not an
/// entry or the text is cut off, with the first such place.
#[unsafe(no_mangle)]
pub extern "C" fn gix_url_c_read_listing(
    alloc: Global,
    text: &[u8],
    built: &mut EntrySizes,
    buffer: &mut [u8],
    numbers: &mut [usize],
    stop: &mut Stop,
) -> u32
    ensures reported { UnlessMemory result
        (ReportsListing text.now built.new buffer.old buffer.new numbers.old numbers.new stop.new result) }
    ensures buffer { LeavesBuffer result buffer.old buffer.new }
    ensures numbers { LeavesBuffer result numbers.old numbers.new }
    ensures sizes { LeavesLengths result built.old built.new }
    ensures stop { LeavesStop result stop.new }
{
    read_listing(alloc, text, built, buffer, numbers, stop)
}

/// Reads the text of a configuration file as [`gix_url_c_read_listing`] reads a listing:
/// [`git_modules::config_file::entries`].
///
/// Returns 0; 1 if memory is refused; 102 if the parts or the numbers don't fit; 106 if the text is not a
/// configuration file, with the place at which Git stops.
#[unsafe(no_mangle)]
pub extern "C" fn gix_url_c_read_file(
    alloc: Global,
    text: &[u8],
    built: &mut EntrySizes,
    buffer: &mut [u8],
    numbers: &mut [usize],
    stop: &mut Stop,
) -> u32
    ensures reported { UnlessMemory result
        (ReportsFile text.now built.new buffer.old buffer.new numbers.old numbers.new stop.new result) }
    ensures buffer { LeavesBuffer result buffer.old buffer.new }
    ensures numbers { LeavesBuffer result numbers.old numbers.new }
    ensures sizes { LeavesLengths result built.old built.new }
    ensures stop { LeavesStop result stop.new }
{
    read_file(alloc, text, built, buffer, numbers, stop)
}
