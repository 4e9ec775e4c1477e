//! Stored locations.

use gix_url::stored::StoredUrl;
use gix_url::{Error, Scheme, Url};
use std::alloc::Global;

/// A record, destructured and rebuilt.
pub fn same_record(stored: StoredUrl) -> StoredUrl {
    let StoredUrl {
        scheme,
        user,
        password,
        host,
        serialize_alternative_form,
        port,
        path,
        path_with_percent_escapes,
    } = stored;
    record_of(
        scheme,
        (user, password, host),
        serialize_alternative_form,
        port,
        (path, path_with_percent_escapes),
    )
}

/// The record of these parts: the texts are user, password and host, the paths are the path and its spelling.
pub fn record_of(
    scheme: Scheme,
    texts: (Option<String>, Option<String>, Option<String>),
    serialize_alternative_form: bool,
    port: Option<u16>,
    paths: (Vec<u8>, Option<Vec<u8>>),
) -> StoredUrl {
    let (user, password, host) = texts;
    let (path, path_with_percent_escapes) = paths;
    StoredUrl {
        scheme,
        user,
        password,
        host,
        serialize_alternative_form,
        port,
        path,
        path_with_percent_escapes,
    }
}

/// Calls `Url::to_stored`.
pub fn to_stored(url: &Url, alloc: Global) -> Result<StoredUrl, Error> {
    Url::to_stored(url, alloc)
}

/// Calls `Url::from_stored`.
pub fn from_stored(alloc: Global, stored: StoredUrl) -> Result<Url, Error> {
    Url::from_stored(alloc, stored)
}
