//! A text that is rewritten by a configuration, as Git does before it fetches or pushes. With 102 only the numbers are
//! reported.

ghost use Rattle.std.specs.Prelude.{◌≡◌, ◌⊎◌};
ghost use Rattle.git_rules.specs.RewriteEntries.{rules_of};
ghost use Rattle.git_rules.specs.Rewrites.{IsRewritten, IsRewrittenToPush};
ghost use Rattle.c_values.specs.Codes.{UnlessMemory, memory, no_room, ok};
ghost use Rattle.c_values.specs.Left.{LeavesLengths, LeavesBuffer};
ghost use Rattle.c_values.specs.Rewriting.{ReportsOutcome, ReportsRewriting};
ghost use Rattle.c_values.specs.Stops.{LeavesStop, no_stop};

use crate::buffer::put;
use crate::codes::MEMORY;
use crate::output::part;
use crate::rules::stops::{NO_VALUE, Stop, no_stop, stop_at};
use git_rules::config::Entry;
use git_rules::rewrite::outcome::Rewritten;
use git_rules::rewrite::{RewriteError, Rewrites};
use std::alloc::Global;

/// The report of `gix_url_c_rewrite_fetch` and `gix_url_c_rewrite_push`, apart from the rewritten text.
#[repr(C)]
#[derive(Clone, Copy)]
pub struct RewriteNumbers {
    /// Whether a rule applied.
    pub is_rewritten: bool,
    /// The length of the base with which the text then begins; otherwise 0.
    pub base: usize,
    /// The length of the text.
    pub len: usize,
}

/// Copies and reports the text that Git fetches from.
pub fn fetch(
    alloc: Global,
    entries: &[Entry<'_>],
    text: &[u8],
    built: &mut RewriteNumbers,
    buffer: &mut [u8],
    stop: &mut Stop,
) -> u32
    ensures reported { UnlessMemory result
        (ReportsRewriting entries.now (IsRewritten (rules_of entries.now).fetching text.now)
        built.new buffer.old buffer.new stop.new result) }
    ensures buffer { LeavesBuffer result buffer.old buffer.new }
    ensures numbers { LeavesLengths result built.old built.new }
    ensures stop { LeavesStop result stop.new }
{
    *stop = no_stop();
    match Rewrites::from_entries(alloc, entries) {
        Ok(rules) => write_outcome(alloc, &rules.rewrite_fetch(text), built, buffer),
        Err(RewriteError::Memory) => MEMORY,
        Err(RewriteError::NoValue { at }) => stop_at(NO_VALUE, at, stop),
    }
}

/// Copies and reports the text that Git pushes to.
pub fn push(
    alloc: Global,
    entries: &[Entry<'_>],
    text: &[u8],
    has_push_url: bool,
    built: &mut RewriteNumbers,
    buffer: &mut [u8],
    stop: &mut Stop,
) -> u32
    ensures reported { UnlessMemory result
        (ReportsRewriting entries.now (IsRewrittenToPush (rules_of entries.now) has_push_url text.now)
        built.new buffer.old buffer.new stop.new result) }
    ensures buffer { LeavesBuffer result buffer.old buffer.new }
    ensures numbers { LeavesLengths result built.old built.new }
    ensures stop { LeavesStop result stop.new }
{
    *stop = no_stop();
    match Rewrites::from_entries(alloc, entries) {
        Ok(rules) => write_outcome(
            alloc,
            &rules.rewrite_push(text, has_push_url),
            built,
            buffer,
        ),
        Err(RewriteError::Memory) => MEMORY,
        Err(RewriteError::NoValue { at }) => stop_at(NO_VALUE, at, stop),
    }
}

/// Copies and reports a rewritten text.
fn write_outcome(
    alloc: Global,
    outcome: &Rewritten<'_>,
    built: &mut RewriteNumbers,
    buffer: &mut [u8],
) -> u32
    ensures reported { UnlessMemory result (ReportsOutcome outcome.now built.new buffer.old buffer.new result) }
    ensures buffer { LeavesBuffer result buffer.old buffer.new }
    ensures numbers { LeavesLengths result built.old built.new }
    ensures code { (result ≡ memory) ⊎ ((result ≡ ok) ⊎ (result ≡ no_room)) }
{
    match outcome.to_bstring(alloc) {
        Ok(text) => {
            *built = RewriteNumbers {
                is_rewritten: outcome.is_rewritten(),
                base: part(outcome.base).len(),
                len: text.as_bytes().len(),
            };
            put(text.as_bytes(), buffer)
        }
        Err(_) => MEMORY,
    }
}
