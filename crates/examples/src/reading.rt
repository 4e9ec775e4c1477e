//! Examples of texts and bytes that are parsed, of texts that are parsed again, and of a location built from parts.

use bstr::{BStr, BString};
use gix_url::{Error, Scheme, Url};
use std::alloc::Global;

/// Whether this library reads the path of the location again in its text.
fn keeps_path(alloc: Global, url: &Url) -> Result<bool, Error> {
    let read = url.reread(alloc)?;
    Ok(read.path.as_bytes() == url.path.as_bytes())
}

/// A remote of a user on this host, by Secure Shell.
fn remote(alloc: Global, user: String, host: String, path: BString) -> Result<Url, Error> {
    Url::from_parts(
        alloc,
        Scheme::Ssh,
        Some(user),
        None,
        Some(host),
        None,
        path,
        false,
    )
}

fn of_line(alloc: Global, line: &[u8]) -> Result<Url, Error> {
    Url::from_bytes(alloc, BStr::new(line))
}

fn port_of(alloc: Global, text: &str) -> Result<Option<u16>, Error> {
    Ok(Url::from_text(alloc, text)?.port) // 22 of `ssh://h:22/p`, none of `h:22/p`
}
