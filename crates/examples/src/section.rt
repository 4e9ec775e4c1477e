//! Examples of the entries of one section.

use git_rules::config::{self, Entry};
use git_rules::protocols::{Protocols, transport};
use gix_url::UrlRef;
use std::alloc::{AllocError, Global};

/// How many of the locations may be used, by the entries of `protocol` alone, which are found once.
fn usable(alloc: Global, entries: &[Entry<'_>], urls: &[UrlRef<'_>]) -> Result<usize, AllocError> {
    let of_protocol = config::entries_of(alloc, entries, "protocol")?;
    Ok(usable_by(&of_protocol, urls))
}

/// How many of the locations may be used.
fn usable_by(entries: &[Entry<'_>], urls: &[UrlRef<'_>]) -> usize {
    let protocols = Protocols {
        entries,
        allow_list: None,
        from_user: None,
    };
    let mut count: usize = 0;
    for url in urls {
        if protocols.permission(transport(url)).is_allowed() {
            count = count.saturating_add(1);
        }
    }
    count
}
