//! Calls of `git_modules` over a submodule's URL and the URL of its parent.

use crate::halt::Halt;
use crate::order::{Order, unknown};
use crate::report::{Out, Report, report_borrowed, report_owned};
use git_modules::resolve::outcome::Resolved;
use git_modules::resolve::{ResolveError, climbs, is_relative, resolve};
use std::alloc::Global;
use std::io::{self, Write};

impl Report for ResolveError {
    fn report(&self, out: &mut Out) -> io::Result<()> {
        write!(out, "{{\"error\":\"{self:?}\"}}")
    }
}

/// Whether a call is over these URLs, by the module or the type in its name.
pub fn has(name: &str) -> bool {
    matches!(name.split_once("::"), Some(("resolve" | "Resolved", _)))
}

/// Makes a call over both URLs. A call over one of them has no parent.
pub fn make(alloc: Global, order: Order<'_>, out: &mut Out) -> Result<(), Halt> {
    let parent = order.bytes(alloc, "parent")?;
    let url = order.bytes(alloc, "url")?;
    let outcome = over_urls(alloc, order, parent.as_slice(), url.as_slice(), out);
    drop(parent);
    drop(url);
    outcome
}

/// A call over both URLs.
fn over_urls(
    alloc: Global,
    order: Order<'_>,
    parent: &[u8],
    url: &[u8],
    out: &mut Out,
) -> Result<(), Halt> {
    match order.call() {
        "resolve::is_relative" => report_borrowed(out, &is_relative(url)),
        "resolve::climbs" => report_borrowed(out, &climbs(parent, url)),
        "resolve::resolve" | "Resolved::to_bstring" => match resolve(parent, url) {
            Err(error) => report_borrowed(out, &error),
            Ok(resolved) => report_text(alloc, &resolved, out),
        },
        call => unknown(call),
    }
}

/// Reports the text of a resolved URL.
fn report_text(alloc: Global, resolved: &Resolved<'_>, out: &mut Out) -> Result<(), Halt> {
    report_owned(out, resolved.to_bstring(alloc))
}
