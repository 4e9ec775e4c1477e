//! Examples of the types: errors, forms, schemes, addresses, users, components.

use bstr::BStr;
use gix_url::expand_path::ForUser;
use gix_url::ipv6::is_ipv6;
use gix_url::lines::{self, RunError};
use gix_url::parse::UrlKind;
use gix_url::{Error, PathComponents, QueryText, Scheme, Url, UrlFault, WriteError, WriteFault};
use std::alloc::Global;

/// Whether the same text can be read at another time: nothing is wrong with it.
fn is_passing(error: &Error) -> bool {
    matches!(error, Error::Memory)
}

/// Whether something is wrong with what was given, and not that memory was refused.
fn is_refusal(error: &Error) -> bool {
    !error.is_memory()
}

fn has_bad_port(error: &Error) -> bool {
    matches!(
        error,
        Error::BadUrl {
            fault: UrlFault::BadPort,
            ..
        }
    )
}

fn is_scp(error: &Error) -> bool {
    matches!(
        error,
        Error::MissingPath {
            kind: UrlKind::Scp,
            ..
        }
    )
}

fn lacks_host(error: &WriteError) -> bool {
    matches!(error, WriteError::Fault(WriteFault::UserWithoutHost))
}

fn is_encrypted(scheme: &Scheme) -> bool {
    matches!(scheme, Scheme::Ssh | Scheme::Https)
}

fn is_current(user: &ForUser) -> bool {
    matches!(user, ForUser::Current)
}

/// Whether a command of Secure Shell needs the option for a port.
fn names_port(url: &Url) -> bool {
    matches!(&url.scheme, Scheme::Ssh) && url.port.is_some()
}

fn kept<'a>(alloc: Global, value: &QueryText<'a>) -> Result<QueryText<'a>, Error> {
    value.clone(alloc)
}

fn both<'a>(alloc: Global, parts: &PathComponents<'a>) -> Result<PathComponents<'a>, Error> {
    parts.clone(alloc)
}

/// What a program of one's own says of a run, and the status that it ends with.
fn ended(rt: &impl Eprint, outcome: &Result<bool, RunError>) -> u8 {
    if let Err(fault) = outcome {
        let _ = rt.eprintln(lines::fault_line(fault));
    }
    lines::status(outcome)
}

fn is_web(alloc: Global, name: &str) -> Result<bool, Error> {
    let scheme = Scheme::from_text(alloc, name)?;
    Ok(matches!(scheme, Scheme::Http | Scheme::Https)) // of `https`, but not of `HTTPS`
}

fn scheme_of(url: &Url) -> &str {
    url.scheme.as_str() // `ssh` of `git@host:repo` and of `ssh+git://host/repo`
}

fn port_of(scheme: &Scheme) -> u16 {
    scheme.default_port().unwrap_or(0) // 9418 of `Scheme::Git`, 0 of `Scheme::File`
}

fn needs_brackets(host: &str) -> bool {
    is_ipv6(host) // `::1`, but neither `[::1]` nor `fe80::1%eth0`
}

fn two_of(alloc: Global, user: ForUser) -> Result<(ForUser, ForUser), Error> {
    let copy = user.clone(alloc)?;
    Ok((user, copy))
}

fn is_empty(value: &QueryText<'_>) -> bool {
    value.as_bstr().as_bytes().is_empty()
}

fn fragment_of<'a>(parts: &PathComponents<'a>) -> Option<BStr<'a>> {
    parts.fragment
}
