//! Builds the owned location that found slices denote. Allocates once for each field.

ghost use Rattle.std.specs.Prelude.{◌≡◌, IfOk, IfSome, IsUtf8, option_map, string_bytes};
ghost use Rattle.std.specs.Option.{option_copied};
ghost use Rattle.git_syntax.specs.Internal.FoundPieces.{AreScpTexts, IsReady, denoted, scp_host_of};
ghost use Rattle.git_syntax.specs.Grammar.{helper_scheme, scp_location};
ghost use Rattle.git_syntax.specs.Internal.SimplePieces.{simple_location};
ghost use Rattle.git_syntax.specs.Location.{path_alone};
ghost use Rattle.git_syntax.specs.Views.{borrowed_scheme};
ghost use Rattle.gix_url.specs.Views.{owned_scheme};

use crate::location::Url;
use crate::parse::copies::{copy, copy_text, copy_unless_empty};
use crate::parse::from_fields::{from_fields, path_alone, plain_location};
use crate::parse::to_location::url_location;
use crate::scheme::Scheme;
use git_syntax::bytes::append_within;
use git_syntax::found::{Found, ScpHost};
use git_syntax::home::from_home;
use git_syntax::host::build::{lowercase_address, normalize};
use git_syntax::scheme::{SchemeRef, helper_scheme};
use git_syntax::simple::SimplePieces;
use git_syntax::text::{as_text, into_text};
use std::alloc::{AllocError, Global};

/// The location that found slices denote.
pub(super) fn build(alloc: Global, found: Found<'_>) -> Result<Url, AllocError>
    requires { IsReady found }
    ensures { IfOk result (λ v. v ≡ denoted found.entry) }
{
    match found {
        Found::Helper { name, address } => {
            let scheme = copy_scheme(alloc, helper_scheme(as_text(name)))?;
            Ok(path_alone(scheme, true, copy(alloc, address)?))
        }
        Found::Local { path } => Ok(path_alone(Scheme::File, true, copy(alloc, path)?)),
        Found::File { host, path } => {
            let host = copy_unless_empty(alloc, host)?;
            let path = copy(alloc, path)?;
            Ok(plain_location(Scheme::File, None, host, false, path))
        }
        Found::Ext { text } => Ok(path_alone(Scheme::Ext, true, copy(alloc, text)?)),
        Found::Url { rules, url } => url_location(alloc, rules, url),
        Found::Scp { user, host, path } => scp_location(alloc, user, host, path),
    }
}

/// The location that the pieces of a simple text denote.
pub(super) fn build_simple(alloc: Global, pieces: SimplePieces<'_>) -> Result<Url, AllocError>
    ensures { IfOk result (λ v. v ≡ simple_location pieces.entry) }
{
    let scheme = copy_scheme(alloc, pieces.scheme)?;
    let user = copy_if_some(alloc, pieces.user)?;
    let host = copy_if_some(alloc, pieces.host)?;
    let path = copy(alloc, pieces.path)?;
    Ok(from_fields(
        scheme,
        user,
        None,
        host,
        pieces.flag,
        pieces.port,
        path,
        None,
    ))
}

/// A copy of the scheme.
fn copy_scheme(alloc: Global, scheme: SchemeRef<'_>) -> Result<Scheme, AllocError>
    ensures { IfOk result (λ copy. owned_scheme copy ≡ borrowed_scheme scheme.entry) }
{
    match scheme {
        SchemeRef::File => Ok(Scheme::File),
        SchemeRef::Git => Ok(Scheme::Git),
        SchemeRef::Ssh => Ok(Scheme::Ssh),
        SchemeRef::Http => Ok(Scheme::Http),
        SchemeRef::Https => Ok(Scheme::Https),
        SchemeRef::Ext => Ok(Scheme::Ext),
        SchemeRef::Helper(name) => Ok(Scheme::Helper(String::from_str(alloc, name)?)),
        SchemeRef::HelperUrl(name) => Ok(Scheme::HelperUrl(String::from_str(alloc, name)?)),
    }
}

/// A copy of the text, if there is one.
fn copy_if_some(alloc: Global, text: Option<&str>) -> Result<Option<String>, AllocError>
    ensures { IfOk result
        (λ copy. option_map string_bytes copy ≡ option_map (λ t. t.now) text.entry) }
{
    match text {
        None => Ok(None),
        Some(text) => Ok(Some(String::from_str(alloc, text)?)),
    }
}

/// A location of Secure Shell with this user, this host and this path.
fn scp_location(
    alloc: Global,
    user: Option<&[u8]>,
    host: ScpHost<'_>,
    path: &[u8],
) -> Result<Url, AllocError>
    requires { AreScpTexts (option_copied user) (scp_host_of host) }
    ensures { IfOk result
        (λ v. v ≡ scp_location (option_copied user.entry) (scp_host_of host.entry) path.now) }
{
    let user = user_text(alloc, user)?;
    let host = host_text(alloc, host)?;
    let path = copy(alloc, from_home(path))?;
    Ok(plain_location(Scheme::Ssh, user, Some(host), true, path))
}

/// The user as an owned text, if there is one.
fn user_text(alloc: Global, user: Option<&[u8]>) -> Result<Option<String>, AllocError>
    requires { IfSome (option_copied user) IsUtf8 }
    ensures { IfOk result (λ text. option_map string_bytes text ≡ option_copied user.entry) }
{
    match user {
        None => Ok(None),
        Some(user) => Ok(Some(copy_text(alloc, user)?)),
    }
}

/// The text of a host of the scp form.
fn host_text(alloc: Global, host: ScpHost<'_>) -> Result<String, AllocError>
    requires { IsUtf8 (scp_host_of host) }
    ensures { IfOk result (λ text. string_bytes text ≡ scp_host_of host.entry) }
{
    match host {
        ScpHost::Literal(text) => {
            let mut copy = copy_of(alloc, text)?;
            lowercase_address(&mut copy);
            Ok(into_text(copy))
        }
        ScpHost::Name(text) => {
            let mut copy = copy_of(alloc, text)?;
            normalize(&mut copy);
            Ok(into_text(copy))
        }
        ScpHost::Kept(text) => Ok(into_text(copy_of(alloc, text)?)),
    }
}

/// The bytes in an owned vector.
fn copy_of(alloc: Global, text: &[u8]) -> Result<Vec<u8>, AllocError>
    ensures { IfOk result (λ copy. copy.items ≡ text.now) }
{
    let mut copy = Vec::with_capacity(alloc, text.len())?;
    append_within(&mut copy, text);
    Ok(copy)
}
