//! Examples of dangers.

use git_audit::danger::{Danger, dangers};
use gix_url::UrlRef;
use std::alloc::{AllocError, Global};

/// The names of some dangers, each with a line feed after it.
fn names(alloc: Global, found: &[Danger]) -> Result<String, AllocError> {
    let mut text = String::new(alloc);
    for danger in found {
        text.push_str(danger.name())?; // `option_like_host`
        text.push('\n')?;
    }
    Ok(text)
}

/// Whether a danger is one of secrets in the text.
fn shows_a_secret(danger: Danger) -> bool {
    danger.words() == "it holds a password" || danger.words() == "it may hold a token"
}

/// Whether there is nothing dangerous in a text; a text that isn't read is dangerous.
fn is_harmless(alloc: Global, text: &[u8], buffer: &mut [u8]) -> Result<bool, AllocError> {
    match UrlRef::parse_in(text, buffer) {
        Ok(url) => Ok(dangers(alloc, text, &url)?.is_empty()), // not of `-u./payload` and `ext::sh -c x`
        Err(_) => Ok(false),
    }
}
