//! Canonical paths. The closure that resolves a path is also `Drop`, since it may not be called.

ghost use Rattle.std.specs.Prelude.{◌≡◌, IsUtf8};
ghost use Rattle.std.specs.Fn.{FnOnceTakesAt};
ghost use Rattle.gix_url.specs.Location.Scheme.{file};

use gix_url::{Error, Url};
use std::alloc::Global;

/// Calls `Url::canonicalize`.
pub fn canonicalize<F: FnOnce(&str) -> Option<String> + Drop>(
    url: &mut Url,
    resolve: F,
) -> Result<(), Error>
    requires { url.old.scheme ≡ file → IsUtf8 url.old.path
        → FnOnceTakesAt F.FnOnce resolve url.old.path }
{
    Url::canonicalize(url, resolve)
}

/// Calls `Url::canonicalized`.
pub fn canonicalized<F: FnOnce(&str) -> Option<String> + Drop>(
    url: &Url,
    alloc: Global,
    resolve: F,
) -> Result<Url, Error>
    requires { url.now.scheme ≡ file → IsUtf8 url.now.path
        → FnOnceTakesAt F.FnOnce resolve url.now.path }
{
    Url::canonicalized(url, alloc, resolve)
}
