//! Examples of locations written, and shown to people.

use bstr::{BStr, BString};
use gix_url::lines::{self, RunError};
use gix_url::testing::TestUrlExtension;
use gix_url::unambiguous::Condition;
use gix_url::{Error, Scheme, Url, WebCondition, WriteError};
use std::alloc::{AllocError, Global};

fn append(out: &mut Vec<u8>, url: &Url) -> Result<(), WriteError> {
    url.write_to(out)
}

/// Whether the text fits into a field of so many bytes.
fn fits(url: &Url, capacity: u128) -> bool {
    url.text_len().is_ok_and(|length| length <= capacity)
}

/// A text in the form that this library writes, if all readers find the same place in it.
fn rewritten(alloc: Global, text: &str) -> Result<Option<BString>, Error> {
    let url = Url::from_text(alloc, text)?;
    if !url.is_unambiguous() {
        return Ok(None);
    }
    Ok(Some(url.to_bstring(alloc)?)) // `ssh://h/p` of `ssh://H:/p`
}

fn spelled(url: &Url) -> BStr<'_> {
    url.original_path() // `/my%20repo` of `https://host/my%20repo`, whose path is `/my repo`
}

/// The text to store for a location, if this library reads it as the same.
fn to_store(alloc: Global, url: &Url) -> Result<Option<BString>, Error> {
    if !url.is_settled() {
        return Ok(None);
    }
    Ok(Some(url.to_bstring(alloc)?))
}

/// The text for Git, if Git reads the same place in it.
fn for_git(alloc: Global, url: &Url) -> Result<Option<BString>, Error> {
    if !url.agrees_with_git() {
        return Ok(None); // `ssh://u:p@h/p`, in which Git reads the user `u:p`
    }
    Ok(Some(url.to_bstring(alloc)?))
}

/// Whether the path is refused for a segment `.` or `..`, which other readers remove.
fn is_refused_for_dots(url: &Url) -> bool {
    url.unmet_web_condition() == Some(WebCondition::NoDotSegment) // of `http://h/a/../b`
}

/// Whether what connects to a remote finds the host that was checked.
fn may_pass_on(url: &Url) -> bool {
    url.is_unambiguous() // not `ssh://::1:22/p`, where some read the port 22
}

/// Whether readers may find another host in the text of the location.
fn may_host_differ(url: &Url) -> bool {
    url.unmet_condition() == Some(Condition::Host) // of `https://a_b/p`
}

fn log_line(alloc: Global, url: &Url) -> Result<String, AllocError> {
    format!(in alloc; "fetching {url}") // `fetching ssh://u:redacted@h/p`
}

/// The answers to lines in memory.
fn answers(alloc: Global, input: &[u8]) -> Result<Vec<u8>, RunError> {
    let mut input = input;
    let mut output = Vec::new(alloc);
    lines::run(alloc, &mut input, &mut output)?;
    Ok(output)
}

fn without_host(path: BString) -> Url {
    <Url as TestUrlExtension>::from_parts_unchecked(
        Scheme::Https,
        None,
        None,
        None,
        None,
        path,
        false,
    )
}
