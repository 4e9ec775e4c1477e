//! Examples of copies, of sorting, and of stored locations.

use gix_url::{Error, Scheme, Url};
use std::alloc::{AllocError, Global};

fn twice(alloc: Global, scheme: Scheme) -> Result<(Scheme, Scheme), Error> {
    let copy = scheme.clone(alloc)?;
    Ok((scheme, copy))
}

/// The same location on another host.
fn mirror(alloc: Global, url: &Url, host: String) -> Result<Url, Error> {
    let mut copy = url.clone(alloc)?;
    copy.host = Some(host);
    Ok(copy)
}

/// Whether a remote is among those that are known.
fn is_known(known: &[Url], remote: &Url) -> bool {
    known.iter().any(|url| url == remote)
}

/// Puts remotes into order.
fn sort(remotes: &mut Vec<Url>) -> Result<(), AllocError> {
    remotes.sort()
}

fn json_of(alloc: Global, url: &Url) -> Option<String> {
    let stored = url.to_stored(alloc).ok()?;
    serde_json::to_string(alloc, &stored).ok()
}

fn url_of(alloc: Global, json: &str) -> Option<Url> {
    let stored = serde_json::from_str(alloc, json).ok()?;
    Url::from_stored(alloc, stored).ok()
}
