//! Examples of hosts that other programs find in a text.

use git_audit::misreading::{GROUPS, Group, is_misread, other_host};
use gix_url::UrlRef;
use gix_url::unambiguous::is_unambiguous;
use std::alloc::{AllocError, Global};

/// The readers that take another host from a text, each group with a line feed after it.
fn misreaders(alloc: Global, text: &[u8], url: &UrlRef<'_>) -> Result<String, AllocError> {
    let mut words = String::new(alloc);
    for group in GROUPS.iter() {
        if other_host(text, url, *group).is_some() {
            words.push_str(group.words())?; // of `h:22/a/b` those that take digits for a port
            words.push('\n')?;
        }
    }
    Ok(words)
}

/// Whether a forge may pass a text on: all readers of a family find the same place in it once it is written, and no
/// known reader takes another host from it.
fn may_be_passed_on(text: &[u8], buffer: &mut [u8]) -> bool {
    match UrlRef::parse_in(text, buffer) {
        Ok(url) => is_unambiguous(&url) && !is_misread(text, &url), // not `ssh://github.com?@evil.com/a/b`
        Err(_) => false,
    }
}

fn is_named(group: Group, name: &str) -> bool {
    group.name() == name // `first_at` is one
}

/// The host that readers of URLs by RFC 3986 find in a text.
fn url_host(text: &[u8]) -> Option<&[u8]> {
    Group::Urls.host_in(text) // `github.com` of `ssh://github.com?@evil.com/a/b`
}
