//! Examples of borrowed locations.

use bstr::{BStr, BString};
use gix_url::unambiguous::{Condition, is_unambiguous, unmet_condition};
use gix_url::{
    ArgumentSafety, Error, PathComponents, Scheme, SchemeRef, Url, UrlRef, WebCondition,
    WriteError, WriteFault, agrees_with_git, unmet_web_condition,
};
use std::alloc::{AllocError, Global};

fn is_encrypted(scheme: SchemeRef<'_>) -> bool {
    matches!(scheme, SchemeRef::Ssh | SchemeRef::Https)
}

/// Writes the location of a repository on a host, without a copy of either, if Git reads the same place in it.
fn write_remote<'a>(out: &mut Vec<u8>, host: &'a str, path: &'a str) -> Result<bool, WriteError> {
    let remote = UrlRef {
        scheme: SchemeRef::Https,
        user: None,
        password: None,
        host: Some(host),
        serialize_alternative_form: false,
        port: None,
        path: path.as_bytes(),
        spelling: None,
    };
    if !agrees_with_git(&remote) {
        return Ok(false); // of `github.com/@evil.com`, which no text names
    }
    remote.write_to(out)?; // `https://host/my%20repo` of `host` and `/my repo`
    Ok(true)
}

/// Whether the location is settled without its password.
fn is_settled_without_password(url: &Url) -> bool {
    let mut bare = url.as_ref();
    bare.password = None; // the password of `url` stays
    bare.is_settled()
}

/// The place of a scheme and a host, the other parts of a location left out.
fn service<'a>(scheme: &'a Scheme, host: &'a str) -> UrlRef<'a> {
    UrlRef {
        scheme: scheme.as_ref(),
        user: None,
        password: None,
        host: Some(host),
        serialize_alternative_form: false,
        port: scheme.default_port(),
        path: b"/",
        spelling: None,
    }
}

/// The protocol of a location, for as long as the location is borrowed.
fn scheme_of<'a>(url: &UrlRef<'a>) -> &'a str {
    url.scheme.as_str() // `ssh` of `git@host:repo`
}

fn port_of(scheme: SchemeRef<'_>) -> u16 {
    scheme.default_port().unwrap_or(0) // 9418 of `SchemeRef::Git`, 0 of `SchemeRef::File`
}

fn has_usual_port(url: &UrlRef<'_>) -> bool {
    url.port_or_default() == url.scheme.default_port() // of `https://host/repo` and `https://host:443/repo`
}

fn names_a_repository(url: &UrlRef<'_>) -> bool {
    !url.path_is_root()
}

fn fragment_of<'a>(alloc: Global, url: &UrlRef<'a>) -> Result<Option<BStr<'a>>, Error> {
    Ok(PathComponents::of(alloc, url)?.fragment)
}

fn log_line(alloc: Global, url: &UrlRef<'_>) -> Result<String, AllocError> {
    format!(in alloc; "fetching {url}") // `fetching ssh://u:redacted@h/p`
}

/// The text of a location in a buffer, if it fits.
fn in_buffer<'a>(url: &UrlRef<'_>, buffer: &'a mut [u8]) -> Result<Option<&'a [u8]>, WriteFault> {
    let length = url.write_into(buffer)?;
    Ok(
        usize::try_from(length)
            .ok()
            .and_then(|length| buffer.get(..length)),
    )
}

fn append(out: &mut Vec<u8>, url: &UrlRef<'_>) -> Result<(), WriteError> {
    url.write_to(out)
}

/// Whether the text fits into a field of so many bytes.
fn fits(url: &UrlRef<'_>, capacity: u128) -> bool {
    url.text_len().is_ok_and(|length| length <= capacity)
}

/// The text of a location without its password, which stays as it is.
fn without_password(alloc: Global, url: &Url) -> Result<BString, Error> {
    let mut bare = url.as_ref();
    bare.password = None;
    Url::text_of(alloc, &bare) // `https://u@h/p` of `https://u:p@h/p`
}

fn spelled<'a>(url: &UrlRef<'a>) -> BStr<'a> {
    url.original_path() // `/my%20repo` of `https://host/my%20repo`, whose path is `/my repo`
}

/// Writes the location if this library reads it as the same.
fn write_settled(out: &mut Vec<u8>, url: &UrlRef<'_>) -> Result<bool, WriteError> {
    if !url.is_settled() {
        return Ok(false);
    }
    url.write_to(out)?;
    Ok(true)
}

/// Writes the text for Git, if Git reads the same place in it.
fn write_for_git(out: &mut Vec<u8>, url: &UrlRef<'_>) -> Result<bool, WriteError> {
    if !agrees_with_git(url) {
        return Ok(false); // `ssh://u:p@h/p`, in which Git reads the user `u:p`
    }
    url.write_to(out)?;
    Ok(true)
}

/// Whether a part of the path is written as a segment that readers remove.
fn has_dots(url: &UrlRef<'_>) -> bool {
    unmet_web_condition(url) == Some(WebCondition::NoDotSegment) // of `http://h/a/../b`
}

/// Whether a checker may pass on a remote: what connects to it finds the host that was checked.
fn may_pass_on(url: &UrlRef<'_>) -> bool {
    is_unambiguous(url) // not `ssh://::1:22/p`, where some read the port 22
}

/// Whether readers may find another host in the text of the location.
fn is_host_odd(url: &UrlRef<'_>) -> bool {
    unmet_condition(url) == Some(Condition::Host) // of `https://a_b/p`
}

fn is_refused(url: &UrlRef<'_>) -> bool {
    // `Dangerous("-Fconfig")` of `ssh://-Fconfig@host/repo`, `Absent` of `ssh://host/repo`
    matches!(url.user_as_argument(), ArgumentSafety::Dangerous(_))
}

fn is_refused_host(url: &UrlRef<'_>) -> bool {
    // `Dangerous("-h")` of `ssh://-h/repo`, `Usable("::1")` of `ssh://[::1]/repo`
    matches!(url.host_as_argument(), ArgumentSafety::Dangerous(_))
}

fn user_or_git<'a>(url: &UrlRef<'a>) -> &'a str {
    url.user_argument_safe().unwrap_or("git")
}

fn can_connect(url: &UrlRef<'_>) -> bool {
    url.host_argument_safe().is_some()
}

fn served<'a>(url: &UrlRef<'a>) -> Option<BStr<'a>> {
    url.path_argument_safe() // `/repo` of `ssh://host/repo`, none of `ssh://host/-repo`
}
