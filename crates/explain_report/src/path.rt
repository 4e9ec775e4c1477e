//! The meaning of a location's path: its components, the home folder that it begins in, and the path for a shell.
//!
//! Bytes that aren't UTF-8 are reported as U+FFFD.

ghost use Rattle.std.specs.Prelude.{◌≡◌, IfOk, option_map, string_bytes};
ghost use Rattle.std.specs.Cow.{cow_str_bytes};
ghost use Rattle.bstr.specs.BStr.{bstr_bytes};
ghost use Rattle.bstr.specs.Owned.{bstring_bytes};
ghost use Rattle.git_syntax.specs.Bytes.{lossy_text};
ghost use Rattle.gix_url.specs.Homes.{SplitsHome};
ghost use Rattle.gix_url.specs.HomeReadings.{user_of};
ghost use Rattle.explain_report.specs.Homes as spec;

use crate::memory::{both, no_memory};
use bstr::{BStr, BString, ByteSlice};
use gix_url::expand_path::{self, ForUser};
use gix_url::{PathComponents, Scheme, Url};
use serde::Serialize;
use std::alloc::{AllocError, Global};
use std::borrow::CowStr;

/// The meaning of a location's path.
#[derive(Drop)]
pub struct Meaning<'a> {
    pub components: Components<'a>,
    pub home: Option<Home>,
    pub shell_path: Option<String>,
    /// The path for a shell, byte for byte.
    pub shell_bytes: Option<BString>,
}

impl<'a> Meaning<'a> {
    /// Returns the meaning of this location's path.
    pub fn of(alloc: Global, url: &'a Url) -> Result<Meaning<'a>, AllocError> {
        let shell_bytes = shell_path_of(alloc, url)?;
        let shell_path = lossy_path(alloc, &shell_bytes);
        let shell = both(shell_bytes, shell_path)?;
        let on_files = both(shell, home_of(alloc, url))?;
        let (((shell_bytes, shell_path), home), components) = both(
            on_files,
            components_of(alloc, url),
        )?;
        Ok(Meaning {
            components,
            home,
            shell_path,
            shell_bytes,
        })
    }
}

/// The components of a path.
#[derive(Drop, Serialize)]
pub struct Components<'a> {
    pub path: CowStr<'a>,
    pub query: Option<Vec<Field>>,
    pub fragment: Option<CowStr<'a>>,
}

/// A field of a query.
#[derive(Drop, Serialize)]
pub struct Field {
    pub name: String,
    pub value: String,
}

/// The home folder in which a path begins.
#[derive(Drop, Serialize)]
pub struct Home {
    /// The name of the user, or `None` for the current user.
    pub user: Option<String>,
    /// The path below the folder.
    pub below: String,
}

/// Path, query and fragment of the location.
fn components_of<'a>(alloc: Global, url: &'a Url) -> Result<Components<'a>, AllocError> {
    let parts = url.path_query_fragment(alloc).map_err(no_memory)?;
    let components = reported_components(alloc, &parts);
    drop(parts);
    components
}

/// The report of path, query and fragment.
fn reported_components<'a>(
    alloc: Global,
    parts: &PathComponents<'a>,
) -> Result<Components<'a>, AllocError> {
    let path = parts.path.as_bytes().to_str_lossy(alloc)?;
    let path = both(path, reported_fragment(alloc, parts.fragment))?;
    let ((path, fragment), query) = both(path, query(alloc, parts))?;
    Ok(Components {
        path,
        query,
        fragment,
    })
}

/// The fragment.
fn reported_fragment<'a>(
    alloc: Global,
    fragment: Option<BStr<'a>>,
) -> Result<Option<CowStr<'a>>, AllocError>
    ensures { IfOk result (λ text. option_map cow_str_bytes text
        ≡ option_map (λ it. lossy_text (bstr_bytes it)) fragment.entry) }
{
    match fragment {
        None => Ok(None),
        Some(fragment) => Ok(Some(fragment.as_bytes().to_str_lossy(alloc)?)),
    }
}

/// The fields of the query.
fn query(alloc: Global, parts: &PathComponents<'_>) -> Result<Option<Vec<Field>>, AllocError> {
    let Some(pairs) = &parts.query else {
        return Ok(None);
    };
    let mut fields = Vec::new(alloc);
    for (name, value) in pairs {
        push_field(alloc, &mut fields, name.as_bstr(), value.as_bstr())?;
    }
    Ok(Some(fields))
}

/// Appends a field of the query.
fn push_field(
    alloc: Global,
    fields: &mut Vec<Field>,
    name: BStr<'_>,
    value: BStr<'_>,
) -> Result<(), AllocError> {
    fields.push(Field {
        name: name.to_string(alloc)?,
        value: value.to_string(alloc)?,
    })?;
    Ok(())
}

/// The home folder in which the path begins, on the server of Secure Shell or `git://`. A local path begins in none:
/// Git takes `/~bob/r` literally.
fn home_of(alloc: Global, url: &Url) -> Result<Option<Home>, AllocError>
    ensures { IfOk result (spec.IsHomeOf url.now) }
{
    if is_of_server(url) {
        home_on_server(alloc, url)
    } else {
        Ok(None)
    }
}

/// Whether a server reads the path in its file system.
fn is_of_server(url: &Url) -> bool
    ensures { result ≡ spec.is_of_server url.now.scheme }
{
    matches!(&url.scheme, Scheme::Ssh | Scheme::Git)
}

/// The home folder in which a path on a server begins.
fn home_on_server(alloc: Global, url: &Url) -> Result<Option<Home>, AllocError>
    ensures { IfOk result (spec.IsHomeOnServer url.now.path) }
{
    let path = path_with_slash(alloc, url)?;
    let (user, below) = split_home(alloc, path.as_bstr())?;
    let home = reported_home(alloc, &user, below.as_bstr());
    drop(user);
    home
}

/// The user of the home folder in which the path begins, if it begins in one, and the rest of the path.
fn split_home(alloc: Global, path: BStr<'_>) -> Result<(Option<ForUser>, BString), AllocError>
    ensures { IfOk result
        (λ p. SplitsHome (bstr_bytes path.entry) (option_map user_of p.0) (bstring_bytes p.1)) }
{
    expand_path::parse(alloc, path).map_err(no_memory)
}

/// The path, with `/` before a `~` at the front. URLs of Secure Shell and Git, and the scp form, are parsed without
/// this `/`.
fn path_with_slash(alloc: Global, url: &Url) -> Result<BString, AllocError>
    ensures { IfOk result (λ path. bstring_bytes path ≡ spec.with_slash url.now.path) }
{
    let mut path = BString::new(Vec::new(alloc));
    if url.path.starts_with(b"~") {
        path.push(b'/')?;
    }
    path.extend_from_slice(url.path.as_bytes())?;
    Ok(path)
}

/// The report of a home folder and of the path below it.
fn reported_home(
    alloc: Global,
    user: &Option<ForUser>,
    below: BStr<'_>,
) -> Result<Option<Home>, AllocError>
    ensures { IfOk result (spec.ReportsHome (option_map user_of user.now) (bstr_bytes below.entry)) }
{
    let user = match user {
        None => return Ok(None),
        Some(ForUser::Current) => None,
        Some(ForUser::Name(name)) => Some(name.as_bstr().to_string(alloc)?),
    };
    Ok(Some(Home {
        user,
        below: below.to_string(alloc)?,
    }))
}

/// The path for a shell, if the location's path is one in a file system.
fn shell_path_of(alloc: Global, url: &Url) -> Result<Option<BString>, AllocError>
    ensures { IfOk result (λ text. spec.IsShellPath url.now (option_map bstring_bytes text)) }
{
    if !matches!(&url.scheme, Scheme::File | Scheme::Ssh | Scheme::Git) {
        return Ok(None);
    }
    let path = BString::from_slice(alloc, url.path.as_bytes())?;
    Ok(Some(expand_path::for_shell(alloc, path).map_err(no_memory)?))
}

/// The path, with U+FFFD for bytes that aren't UTF-8.
fn lossy_path(alloc: Global, path: &Option<BString>) -> Result<Option<String>, AllocError>
    ensures { IfOk result (λ text. option_map string_bytes text
        ≡ option_map (λ it. lossy_text (bstring_bytes it)) path.now) }
{
    match path {
        None => Ok(None),
        Some(path) => Ok(Some(path.as_bstr().to_string(alloc)?)),
    }
}
