//! Examples of locations that Git rewrites by its configuration.

use bstr::BString;
use git_rules::config::{self, Entry};
use git_rules::rewrite::host::{is_same_host, names_same_host, texts_name_same_host};
use git_rules::rewrite::{RewriteError, Rewrites};
use gix_url::UrlRef;
use gix_url::unambiguous::is_unambiguous;
use std::alloc::{AllocError, Global};

/// The text that Git fetches from, by a configuration that `git config --list -z` wrote.
fn fetched_from(alloc: Global, text: &[u8], location: &[u8]) -> Result<BString, RewriteError> {
    let entries = config::entries(alloc, text)?;
    let rules = Rewrites::from_entries(alloc, &entries)?;
    Ok(rules.rewrite_fetch(location).to_bstring(alloc)?)
}

/// The rules of a configuration, and how many of them have no value, which Git would have stopped at.
fn lenient<'a>(
    alloc: Global,
    entries: &[Entry<'a>],
) -> Result<(Rewrites<'a>, usize), RewriteError> {
    let mut rules = Rewrites::new(alloc);
    let mut bad: usize = 0;
    for entry in entries {
        match rules.add_entry(entry) {
            Ok(()) => {}
            Err(RewriteError::NoValue { at: _ }) => bad = bad.saturating_add(1),
            Err(error) => return Err(error),
        }
    }
    Ok((rules, bad))
}

/// A rule by hand: GitHub over HTTPS in place of Secure Shell.
fn over_https(alloc: Global) -> Result<Rewrites<'static>, AllocError> {
    let mut rules = Rewrites::new(alloc);
    rules.add_fetch(b"https://github.com/", b"git@github.com:")?;
    Ok(rules)
}

/// The text that Git pushes to, for a remote with this URL and perhaps this push URL.
fn pushed_to(
    alloc: Global,
    rules: &Rewrites<'_>,
    url: &[u8],
    push_url: Option<&[u8]>,
) -> Result<BString, AllocError> {
    match push_url {
        None => rules.rewrite_push(url, false).to_bstring(alloc),
        Some(push_url) => rules.rewrite_push(push_url, true).to_bstring(alloc),
    }
}

/// Whether a rule may move a location to a host that the user hasn't named.
fn may_be_moved(before: &UrlRef<'_>, after: &UrlRef<'_>) -> bool {
    !(is_unambiguous(before) && is_unambiguous(after) && names_same_host(before, after))
}

/// Whether both texts name the same host for all readers; none where one of them isn't read, or not by all
/// readers alike, or is longer than 1,024 bytes.
fn keeps_host(before: &[u8], after: &[u8]) -> Option<bool> {
    let mut buffer = [0u8; 1024];
    let mut other = [0u8; 1024];
    if !is_unambiguous(&UrlRef::parse_in(before, &mut buffer).ok()?)
        || !is_unambiguous(&UrlRef::parse_in(after, &mut other).ok()?)
    {
        return None;
    }
    texts_name_same_host(before, &mut buffer, after, &mut other).ok()
}

/// Whether all readers connect to one of the known hosts.
fn is_known(url: &UrlRef<'_>, known: &[&str]) -> bool {
    let host = url.host.unwrap_or("").as_bytes();
    is_unambiguous(url) && known.iter().any(|name| is_same_host(host, name.as_bytes()))
}

/// The front that a rule takes off a text, if one wins.
fn front<'a>(rules: &Rewrites<'_>, text: &'a [u8]) -> Option<&'a [u8]> {
    let outcome = rules.rewrite_fetch(text);
    outcome.base?;
    text.strip_suffix(outcome.rest)
}

/// How many of the locations a configuration rewrites.
fn rewritten(rules: &Rewrites<'_>, locations: &[&[u8]]) -> usize {
    let mut count: usize = 0;
    for location in locations {
        if rules.rewrite_fetch(location).is_rewritten() {
            count = count.saturating_add(1);
        }
    }
    count
}
