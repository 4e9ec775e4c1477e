//! Examples of parts: read, replaced, and passed to commands.

use bstr::{BStr, BString};
use gix_url::{ArgumentSafety, Error, Url};
use std::alloc::{AllocError, Global};

fn at_host(alloc: Global, host: String) -> Url {
    let mut url = Url::default_in(alloc);
    url.host = Some(host);
    url
}

fn is_git(url: &Url) -> bool {
    url.user() == Some("git") // of `ssh://git@host/repo`
}

fn asks_for_password(url: &Url) -> bool {
    url.user().is_some() && url.password().is_none() // of `https://user@host/repo`
}

fn is_on_github(url: &Url) -> bool {
    url.is_unambiguous() && url.host() == Some("github.com") // not of `ssh://github.com/@[evil.com]/a`
}

fn has_usual_port(url: &Url) -> bool {
    url.port_or_default() == url.scheme.default_port() // of `https://host/repo` and `https://host:443/repo`
}

fn names_a_repository(url: &Url) -> bool {
    !url.path_is_root()
}

fn is_plain(alloc: Global, text: &str) -> Result<bool, Error> {
    let url = Url::from_text(alloc, text)?;
    Ok(!url.has_spelling()) // of `https://host/my`, but not of `https://host/%6dy`
}

fn as_git(alloc: Global, url: &mut Url) -> Result<Option<String>, AllocError> {
    let git = String::from_str(alloc, "git")?;
    Ok(url.set_user(Some(git)))
}

fn without_password(url: &mut Url) {
    let _ = url.set_password(None);
}

fn as_path(alloc: Global) -> Result<BString, Error> {
    let url = Url::from_text(alloc, "file:///path")?.with_request_alternate_form(true);
    url.to_bstring(alloc) // `/path`
}

/// A user that must not be passed to a command.
#[derive(Clone, Copy, Debug)]
struct Refused;

fn ssh_user<'a>(url: &'a Url) -> Result<Option<&'a str>, Refused> {
    match url.user_as_argument() {
        ArgumentSafety::Absent => Ok(None),
        ArgumentSafety::Usable(user) => Ok(Some(user)),
        ArgumentSafety::Dangerous(_) => Err(Refused),
    }
}

fn is_refused(url: &Url) -> bool {
    // `Dangerous("-Fconfig")` of `ssh://-Fconfig@host/repo`, `Absent` of `ssh://host/repo`
    matches!(url.user_as_argument(), ArgumentSafety::Dangerous(_))
}

fn is_refused_host(url: &Url) -> bool {
    // `Dangerous("-h")` of `ssh://-h/repo`, `Usable("::1")` of `ssh://[::1]/repo`
    matches!(url.host_as_argument(), ArgumentSafety::Dangerous(_))
}

fn user_or_git(url: &Url) -> &str {
    url.user_argument_safe().unwrap_or("git")
}

fn can_connect(url: &Url) -> bool {
    url.host_argument_safe().is_some()
}

fn served(url: &Url) -> Option<BStr<'_>> {
    url.path_argument_safe() // `/repo` of `ssh://host/repo`, none of `ssh://host/-repo`
}
