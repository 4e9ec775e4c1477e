//! Schemes and their calls.

use gix_url::{Error, Scheme};
use std::alloc::Global;

/// A scheme, destructured and rebuilt.
pub fn same_scheme(scheme: Scheme) -> Scheme {
    match scheme {
        Scheme::File => Scheme::File,
        Scheme::Git => Scheme::Git,
        Scheme::Ssh => Scheme::Ssh,
        Scheme::Http => Scheme::Http,
        Scheme::Https => Scheme::Https,
        Scheme::Ext => Scheme::Ext,
        Scheme::Helper(name) => helper(name),
        Scheme::HelperUrl(name) => helper_url(name),
    }
}

/// The scheme of a helper.
pub fn helper(name: String) -> Scheme {
    Scheme::Helper(name)
}

/// The scheme of another URL.
pub fn helper_url(name: String) -> Scheme {
    Scheme::HelperUrl(name)
}

/// Calls `Scheme::from_text`.
pub fn from_text(alloc: Global, text: &str) -> Result<Scheme, Error> {
    Scheme::from_text(alloc, text)
}

/// Calls `Scheme::as_str`.
pub fn as_str(scheme: &Scheme) -> &str {
    Scheme::as_str(scheme)
}

/// Calls `Scheme::default_port`.
pub fn default_port(scheme: &Scheme) -> Option<u16> {
    Scheme::default_port(scheme)
}

/// Calls `Scheme::clone`.
pub fn copied(scheme: &Scheme, alloc: Global) -> Result<Scheme, Error> {
    Scheme::clone(scheme, alloc)
}
