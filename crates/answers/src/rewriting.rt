//! Calls of `git_rules` that rewrite texts, by the entries of a configuration or by one rule.

use crate::halt::Halt;
use crate::order::{Order, unknown};
use crate::report::{Out, report_owned};
use bstr::BString;
use git_rules::config::Entry;
use git_rules::rewrite::{RewriteError, Rewrites};
use std::alloc::{AllocError, Global};

/// Calls over the rules of entries, and a text.
pub fn over_entries(
    alloc: Global,
    order: Order<'_>,
    entries: &[Entry<'_>],
    out: &mut Out,
) -> Result<(), Halt> {
    let text = order.bytes(alloc, "text")?;
    let outcome = rewrite(alloc, order, entries, text.as_slice(), out);
    drop(text);
    outcome
}

/// Reports the result of rewriting a text by the rules of entries.
fn rewrite(
    alloc: Global,
    order: Order<'_>,
    entries: &[Entry<'_>],
    text: &[u8],
    out: &mut Out,
) -> Result<(), Halt> {
    match order.call() {
        "Rewrites::from_entries" => report_owned(out, fill(alloc, entries)),
        "Rewrites::rewrite_fetch" | "Rewritten::to_bstring" => {
            report_owned(out, fetched(alloc, entries, text))
        }
        "Rewrites::rewrite_push" => {
            report_owned(out, pushed(alloc, entries, text, order.is("has_push_url")))
        }
        "Rewrites::add_entry" => report_owned(out, by_entries(alloc, entries, text)),
        "Rewritten::is_rewritten" => report_owned(out, is_rewritten(alloc, entries, text)),
        call => unknown(call),
    }
}

/// Builds the rules of entries.
fn fill(alloc: Global, entries: &[Entry<'_>]) -> Result<(), RewriteError> {
    let rules = Rewrites::from_entries(alloc, entries)?;
    drop(rules);
    Ok(())
}

/// The text that Git fetches from.
fn fetched(alloc: Global, entries: &[Entry<'_>], text: &[u8]) -> Result<BString, RewriteError> {
    let rules = Rewrites::from_entries(alloc, entries)?;
    let written = rules.rewrite_fetch(text).to_bstring(alloc);
    drop(rules);
    Ok(written?)
}

/// The text that Git pushes to.
fn pushed(
    alloc: Global,
    entries: &[Entry<'_>],
    text: &[u8],
    has_push_url: bool,
) -> Result<BString, RewriteError> {
    let rules = Rewrites::from_entries(alloc, entries)?;
    let written = rules.rewrite_push(text, has_push_url).to_bstring(alloc);
    drop(rules);
    Ok(written?)
}

/// Whether a rule applies when a text is fetched from.
fn is_rewritten(alloc: Global, entries: &[Entry<'_>], text: &[u8]) -> Result<bool, RewriteError> {
    let rules = Rewrites::from_entries(alloc, entries)?;
    let is_rewritten = rules.rewrite_fetch(text).is_rewritten();
    drop(rules);
    Ok(is_rewritten)
}

/// The texts that Git fetches from and pushes to, by the rules that have a value.
fn by_entries(
    alloc: Global,
    entries: &[Entry<'_>],
    text: &[u8],
) -> Result<(BString, BString), RewriteError> {
    let mut rules = Rewrites::new(alloc);
    for entry in entries {
        match rules.add_entry(entry) {
            Ok(()) => {}
            Err(RewriteError::NoValue { at: _ }) => {}
            Err(error) => return Err(error),
        }
    }
    Ok(both(alloc, rules, text)?)
}

/// Calls over a text, and the base and the prefix of a rule.
pub fn over_rule(alloc: Global, order: Order<'_>, text: &[u8], out: &mut Out) -> Result<(), Halt> {
    let base = order.bytes(alloc, "base")?;
    let front = order.bytes(alloc, "front")?;
    let outcome = match order.call() {
        "Rewrites::new" => report_owned(out, both(alloc, Rewrites::new(alloc), text)),
        "Rewrites::add_fetch" => report_owned(out, by_fetch_rule(alloc, &base, &front, text)),
        "Rewrites::add_push" => report_owned(out, by_push_rule(alloc, &base, &front, text)),
        call => unknown(call),
    };
    drop(front);
    drop(base);
    outcome
}

/// The texts that Git fetches from and pushes to, by a rule for fetching.
fn by_fetch_rule(
    alloc: Global,
    base: &[u8],
    front: &[u8],
    text: &[u8],
) -> Result<(BString, BString), AllocError> {
    let mut rules = Rewrites::new(alloc);
    rules.add_fetch(base, front)?;
    both(alloc, rules, text)
}

/// The texts that Git fetches from and pushes to, by a rule for pushing.
fn by_push_rule(
    alloc: Global,
    base: &[u8],
    front: &[u8],
    text: &[u8],
) -> Result<(BString, BString), AllocError> {
    let mut rules = Rewrites::new(alloc);
    rules.add_push(base, front)?;
    both(alloc, rules, text)
}

/// The texts that Git fetches from and pushes to.
fn both(alloc: Global, rules: Rewrites<'_>, text: &[u8]) -> Result<(BString, BString), AllocError> {
    let fetched = rules.rewrite_fetch(text).to_bstring(alloc)?;
    let pushed = rules.rewrite_push(text, false).to_bstring(alloc);
    drop(rules);
    Ok((fetched, pushed?))
}
