//! The exports that rewrite a text by a configuration, as Git does before it fetches or pushes. With 102 only the
//! numbers are reported.

ghost use Rattle.git_rules.specs.RewriteEntries.{rules_of};
ghost use Rattle.git_rules.specs.Rewrites.{IsRewritten, IsRewrittenToPush};
ghost use Rattle.c_values.specs.Codes.{UnlessMemory};
ghost use Rattle.c_values.specs.Entries.{entries_passed};
ghost use Rattle.c_values.specs.Left.{LeavesLengths, LeavesBuffer};
ghost use Rattle.c_values.specs.Rewriting.{ReportsRewriting};
ghost use Rattle.c_values.specs.Stops.{LeavesStop, no_stop};

use c_values::codes::MEMORY;
use c_values::rules::entries::{EntryBytes, entries_of};
use c_values::rules::rewriting::{RewriteNumbers, fetch, push};
use c_values::rules::stops::{Stop, no_stop};
use std::alloc::Global;

/// Copies the text that Git fetches from to the buffer: [`git_rules::rewrite::Rewrites::rewrite_fetch`].
///
/// Returns 0; 1 if memory is refused; 102 if the text doesn't fit; 104 if Git stops at an entry without a value, with
/// the place of that entry.
#[unsafe(no_mangle)]
pub extern "C" fn gix_url_c_rewrite_fetch(
    alloc: Global,
    entries: &[EntryBytes<'_>],
    text: &[u8],
    built: &mut RewriteNumbers,
    buffer: &mut [u8],
    stop: &mut Stop,
) -> u32
    ensures reported { let config = entries_passed entries.now in UnlessMemory result
        (ReportsRewriting config (IsRewritten (rules_of config).fetching text.now)
        built.new buffer.old buffer.new stop.new result) }
    ensures buffer { LeavesBuffer result buffer.old buffer.new }
    ensures numbers { LeavesLengths result built.old built.new }
    ensures stop { LeavesStop result stop.new }
{
    *stop = no_stop();
    match entries_of(alloc, entries) {
        Ok(entries) => fetch(alloc, &entries, text, built, buffer, stop),
        Err(_) => MEMORY,
    }
}

/// Copies the text that Git pushes to to the buffer: [`git_rules::rewrite::Rewrites::rewrite_push`].
///
/// Returns the numbers of [`gix_url_c_rewrite_fetch`].
#[unsafe(no_mangle)]
pub extern "C" fn gix_url_c_rewrite_push(
    alloc: Global,
    entries: &[EntryBytes<'_>],
    text: &[u8],
    has_push_url: bool,
    built: &mut RewriteNumbers,
    buffer: &mut [u8],
    stop: &mut Stop,
) -> u32
    ensures reported { let config = entries_passed entries.now in UnlessMemory result
        (ReportsRewriting config (IsRewrittenToPush (rules_of config) has_push_url text.now)
        built.new buffer.old buffer.new stop.new result) }
    ensures buffer { LeavesBuffer result buffer.old buffer.new }
    ensures numbers { LeavesLengths result built.old built.new }
    ensures stop { LeavesStop result stop.new }
{
    *stop = no_stop();
    match entries_of(alloc, entries) {
        Ok(entries) => push(alloc, &entries, text, has_push_url, built, buffer, stop),
        Err(_) => MEMORY,
    }
}
