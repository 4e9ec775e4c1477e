//! Examples of remotes: the URLs that Git fetches from and pushes to by a configuration.

use bstr::BString;
use git_rules::config::Entry;
use git_rules::remote::{Remote, RemoteError};
use git_rules::rewrite::Rewrites;
use std::alloc::{AllocError, Global};

/// The URL that `git fetch` uses; none where the remote has a foreign helper and no URL.
fn fetched_from(alloc: Global, remote: &Remote<'_>) -> Result<Option<BString>, AllocError> {
    match remote.urls.first() {
        None => Ok(None),
        Some(url) => Ok(Some(url.to_bstring(alloc)?)),
    }
}

/// The texts that `git push NAME` pushes to, each with a line feed after it.
fn push_lines<'a>(
    alloc: Global,
    entries: &[Entry<'a>],
    rules: &Rewrites<'a>,
    name: &'a [u8],
) -> Result<Vec<u8>, RemoteError> {
    let remote = Remote::of(alloc, entries, rules, name)?;
    let mut lines = Vec::new(alloc);
    for url in &remote.push_urls {
        lines.extend_from_slice(url.to_bstring(alloc)?.as_bytes())?;
        lines.extend_from_slice(b"\n")?;
    }
    Ok(lines)
}
