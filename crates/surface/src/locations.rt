//! Locations: their fields, and the calls that build and change them.

use bstr::{BStr, BString};
use gix_url::testing::TestUrlExtension;
use gix_url::{Error, Scheme, Url};
use std::alloc::Global;

/// The types of the public fields, in the order of their declaration.
pub type Fields = (
    Scheme,
    Option<String>,
    Option<String>,
    Option<String>,
    bool,
    Option<u16>,
    BString,
);

/// The public fields of a location. The pattern ends in `..`, since the escaped path is private, so only calls can
/// build a location.
pub fn fields_of(url: Url) -> Fields {
    let Url {
        scheme,
        user,
        password,
        host,
        serialize_alternative_form,
        port,
        path,
        ..
    } = url;
    (
        scheme,
        user,
        password,
        host,
        serialize_alternative_form,
        port,
        path,
    )
}

/// Calls `Url::from_parts`.
pub fn from_parts(
    alloc: Global,
    scheme: Scheme,
    texts: (Option<String>, Option<String>, Option<String>),
    port: Option<u16>,
    path: BString,
    flag: bool,
) -> Result<Url, Error> {
    let (user, password, host) = texts;
    Url::from_parts(alloc, scheme, user, password, host, port, path, flag)
}

/// Calls `TestUrlExtension::from_parts_unchecked`.
pub fn from_parts_unchecked(
    scheme: Scheme,
    texts: (Option<String>, Option<String>, Option<String>),
    port: Option<u16>,
    path: BString,
    flag: bool,
) -> Url {
    let (user, password, host) = texts;
    <Url as TestUrlExtension>::from_parts_unchecked(scheme, user, password, host, port, path, flag)
}

/// Calls `Url::default_in`.
pub fn default_in(alloc: Global) -> Url {
    Url::default_in(alloc)
}

/// Calls `Url::clone`.
pub fn copied(url: &Url, alloc: Global) -> Result<Url, Error> {
    Url::clone(url, alloc)
}

/// Calls `Url::set_user`.
pub fn set_user(url: &mut Url, user: Option<String>) -> Option<String> {
    Url::set_user(url, user)
}

/// Calls `Url::set_password`.
pub fn set_password(url: &mut Url, password: Option<String>) -> Option<String> {
    Url::set_password(url, password)
}

/// Calls `Url::with_request_alternate_form`.
pub fn with_request_alternate_form(url: Url, flag: bool) -> Url {
    Url::with_request_alternate_form(url, flag)
}

/// Calls `Url::user`.
pub fn user(url: &Url) -> Option<&str> {
    Url::user(url)
}

/// Calls `Url::password`.
pub fn password(url: &Url) -> Option<&str> {
    Url::password(url)
}

/// Calls `Url::host`.
pub fn host(url: &Url) -> Option<&str> {
    Url::host(url)
}

/// Calls `Url::port_or_default`.
pub fn port_or_default(url: &Url) -> Option<u16> {
    Url::port_or_default(url)
}

/// Calls `Url::original_path`.
pub fn original_path(url: &Url) -> BStr<'_> {
    Url::original_path(url)
}

/// Calls `Url::path_is_root`.
pub fn path_is_root(url: &Url) -> bool {
    Url::path_is_root(url)
}

/// Calls `Url::is_settled`.
pub fn is_settled(url: &Url) -> bool {
    Url::is_settled(url)
}
