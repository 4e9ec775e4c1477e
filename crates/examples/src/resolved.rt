//! Examples of URLs of submodules.

use git_modules::resolve::outcome::Resolved;
use git_modules::resolve::{climbs, is_relative, resolve};
use git_rules::rewrite::host::names_same_host;
use gix_url::UrlRef;
use gix_url::unambiguous::is_unambiguous;
use std::alloc::{AllocError, Global};

/// How many of the URLs depend on where the superproject is fetched from.
fn relative(urls: &[&[u8]]) -> usize {
    let mut count: usize = 0;
    for url in urls {
        if is_relative(url) {
            count = count.saturating_add(1); // of `../b` and `./b`, and not of `b`
        }
    }
    count
}

/// Whether all readers fetch a submodule from the host of the superproject; none where Git stores no URL, or
/// a URL isn't read, or is longer than 1,024 bytes.
fn stays_on_host(alloc: Global, parent: &[u8], url: &[u8]) -> Result<Option<bool>, AllocError> {
    let Ok(resolved) = resolve(parent, url) else {
        return Ok(None); // of `a`, `../../b`
    };
    let text = resolved.to_bstring(alloc)?; // `https://h/b` of `https://h/a`, `../b`
    let mut buffer = [0u8; 1024];
    let mut other = [0u8; 1024];
    let Ok(from) = UrlRef::parse_in(parent, &mut buffer) else {
        return Ok(None);
    };
    let Ok(to) = UrlRef::parse_in(text.as_bytes(), &mut other) else {
        return Ok(None);
    };
    let alike = is_unambiguous(&from) && is_unambiguous(&to);
    Ok(Some(alike && names_same_host(&from, &to)))
}

/// Whether a submodule is taken from where the superproject is, as far as its URL says.
fn is_below(parent: &[u8], url: &[u8]) -> bool {
    is_relative(url) && !climbs(parent, url)
}

/// Whether a resolved URL has nothing of its parent.
fn is_alone(resolved: &Resolved<'_>) -> bool {
    resolved.separator.is_empty() || resolved.front == b".".as_slice()
}
