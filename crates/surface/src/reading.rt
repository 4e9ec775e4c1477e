//! Parsing, and the form that a text was taken for.
//!
//! `parse` is in its module, and not also at the crate's root: Rattle refuses a module and an item with one name there.

use bstr::BStr;
use gix_url::ipv6::is_ipv6;
use gix_url::parse::{UrlKind, parse};
use gix_url::{Error, Url};
use std::alloc::Global;

/// A form, destructured and rebuilt.
pub fn same_kind(kind: UrlKind) -> UrlKind {
    match kind {
        UrlKind::Url => UrlKind::Url,
        UrlKind::Scp => UrlKind::Scp,
        UrlKind::Local => UrlKind::Local,
    }
}

/// Calls `parse::parse`.
pub fn read(alloc: Global, input: BStr<'_>) -> Result<Url, Error> {
    parse(alloc, input)
}

/// Calls `Url::from_bytes`.
pub fn from_bytes(alloc: Global, input: BStr<'_>) -> Result<Url, Error> {
    Url::from_bytes(alloc, input)
}

/// Calls `Url::from_text`.
pub fn from_text(alloc: Global, text: &str) -> Result<Url, Error> {
    Url::from_text(alloc, text)
}

/// Calls `Url::reread`.
pub fn reread(url: &Url, alloc: Global) -> Result<Url, Error> {
    Url::reread(url, alloc)
}

/// Calls `ipv6::is_ipv6`.
pub fn is_address(text: &str) -> bool {
    is_ipv6(text)
}
