//! Examples of a path's meaning: a query, a home folder, a place in the file system.

use bstr::{BStr, BString};
use gix_url::expand_path::{self, ForUser, for_shell};
use gix_url::{Error, Url};
use std::alloc::Global;
use std::rt::{Env, Files};
use std::{env, fs};

/// Whether the query asks for the service of this name.
fn asks_for(alloc: Global, url: &Url, service: &[u8]) -> Result<bool, Error> {
    let parts = url.path_query_fragment(alloc)?;
    let Some(query) = &parts.query else {
        return Ok(false);
    };
    for (name, value) in query {
        if name.as_bstr().as_bytes() == b"service".as_slice()
            && value.as_bstr().as_bytes() == service
        {
            return Ok(true);
        }
    }
    Ok(false)
}

/// Whether a path begins in the home folder of the current user.
fn is_own(alloc: Global, path: BStr<'_>) -> Result<bool, Error> {
    let (user, _) = expand_path::parse(alloc, path)?;
    Ok(user == Some(ForUser::Current))
}

/// The path of a location, to be given to a shell on its host.
fn remote_path(alloc: Global, url: Url) -> Result<BString, Error> {
    for_shell(alloc, url.path)
}

/// The path, where all users have their home folders in `/home`.
fn in_home(alloc: Global, user: Option<&ForUser>, path: BStr<'_>) -> Result<String, Error> {
    expand_path::with(alloc, user, path, |user| match user {
        ForUser::Current => None,
        ForUser::Name(name) => format!(in alloc; "/home/{name}").ok(),
    })
}

/// A path below the home folder of its user, by the home folder that the environment names.
fn expand(rt: &(impl Env + AllocGlobal), path: BStr<'_>) -> Result<String, Error> {
    let (user, rest) = expand_path::parse(rt.alloc(), path)?;
    let home = env::home_dir(rt).ok().flatten();
    let home = home.as_ref().map(|home| home.as_path().as_str());
    expand_path::expand_path(rt.alloc(), user.as_ref(), rest.as_bstr(), home)
}

/// Gives a local location the path that the file system has for it.
fn resolve<R: Files + AllocGlobal>(rt: &R, url: &mut Url) -> Result<(), Error> {
    url.canonicalize(|path| {
        fs::canonicalize(rt, path)
            .ok()
            .map(|path| path.into_string())
    })
}

/// The same location by the path that the file system has for it.
fn real<R: Files + AllocGlobal>(rt: &R, url: &Url) -> Result<Url, Error> {
    let alloc = rt.alloc();
    url.canonicalized(alloc, |path| {
        fs::canonicalize(rt, path)
            .ok()
            .map(|path| path.into_string())
    })
}
