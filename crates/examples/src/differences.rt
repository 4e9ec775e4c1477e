//! Uses of the Rust crate in the form that this library needs: the examples of `docs/DIFFERENCES.md`.

use bstr::BStr;
use gix_url::{Error, Url, UrlFault, expand_path};
use std::alloc::Global;

fn port_named(alloc: Global, text: &str) -> Result<Option<u16>, Error> {
    let url = Url::from_text(alloc, text)?;
    Ok(url.port)
}

fn asks_for_a_host(alloc: Global, text: &str) -> bool {
    matches!(
        Url::from_text(alloc, text),
        Err(Error::BadUrl {
            fault: UrlFault::HostRequired,
            ..
        })
    )
}

fn path_at_home(alloc: Global, path: BStr<'_>, home: Option<&str>) -> Result<String, Error> {
    let (user, below) = expand_path::parse(alloc, path)?;
    expand_path::expand_path(alloc, user.as_ref(), below.as_bstr(), home)
}
