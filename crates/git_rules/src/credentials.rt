//! The settings of Git's credential code for a URL: which helpers it asks, for which user, and whether they get the
//! path of an HTTP URL.

mod entry;
pub mod law;
mod partial;
mod url;

ghost use Rattle.std.specs.Prelude.{◌≡◌, false, IfErr, IfOk, MatchResult, OnOk, Some, option_map};
ghost use Rattle.git_reads.specs.Views.{credential_reading};
ghost use Rattle.git_rules.specs.CredentialEntries as spec;
ghost use Rattle.git_rules.specs.CredentialEntries.{IsFormOf};
ghost use Rattle.git_rules.specs.CredentialUrls as urls;
ghost use Rattle.git_rules.specs.Credentials.{AddsHelper, AreCredentials, Refuses, RefusesCredentials, SetsPath, StopsAt, Takes};

use crate::boolean::read_boolean;
use crate::config::Entry;
use crate::credentials::entry::applies;
use crate::credentials::url::credential_url;
use crate::normal::{NormalUrl, needed_buffer_len};
use crate::pattern::entries::is_short_buffer;
use git_reads::credential::Request;
use std::alloc::{AllocError, Global};
use std::marker::Model;
use thiserror::Error;

/// The settings of Git's credential code for a URL. [`credentials_for`] has an example.
#[derive(Drop)]
pub struct Credentials<'a> {
    /// The indices of the entries whose values are the helpers, in the order in which Git calls them.
    pub helpers: Vec<usize>,
    /// The user to ask the helpers for, decoded. It may be empty.
    pub user: Option<&'a [u8]>,
    /// Whether helpers get the path of an HTTP URL. They always get the path of any other URL.
    pub use_http_path: bool,
}

impl<'a> Model for Credentials<'a> {
    ghost use Rattle.git_rules.specs.CredentialEntries.{CredentialUse};

    ghost Value = { CredentialUse };

    ghost use Rattle.git_rules.specs.CredentialView.{credential_use};

    ghost view = { credential_use };
}

/// An error of [`credentials_for`], which has an example.
#[derive(Clone, Copy, Debug, PartialEq, Eq, Error)]
pub enum CredentialsError {
    /// An allocation failed.
    #[error("out of memory")]
    Memory,
    /// An entry that applies has no value. Git stops there, whatever the entry's name.
    #[error("the setting at byte {at} has no value")]
    NoValue {
        /// The byte offset of the entry in the text of the configuration.
        at: usize,
    },
    /// The value of a `useHttpPath` that applies isn't a boolean value. Git stops there.
    #[error("the setting at byte {at} has no boolean value")]
    NoBoolean {
        /// The byte offset of the entry in the text of the configuration.
        at: usize,
    },
}

impl From<AllocError> for CredentialsError {
    ghost use Rattle.git_rules.specs.declared.credentials.CredentialsError.TheVariants.{Memory};

    ghost from_gives = { λ _ e. e ≡ Memory };

    fn from(_: AllocError) -> CredentialsError {
        CredentialsError::Memory
    }
}

/// Returns the settings in these entries that Git's credential code uses for a request.
/// [`reading`](git_reads::credential::reading) returns the request for the text of a URL.
///
/// Git goes through the entries of `credential.*` in their order (`credential.c` of Git 2.39.5). An entry applies
/// to the request in each of these cases:
///
/// - It has no subsection.
/// - Its subsection is a pattern ([`UrlPattern`](crate::pattern::UrlPattern)) that matches the URL that Git writes
///   for the request: the protocol, `://`, the user and `@`, the host, and a `/` and the path. Each byte of a part
///   that could be a delimiter is escaped, and an empty user is left out. A URL without a normal form matches no
///   pattern.
/// - Its subsection has no normal form as a pattern, such as `example.com` and `https://`, and the request has each
///   part that Git reads in it: a protocol, a user, a host and a path, each of which may be missing. They are
///   decoded and compared byte by byte with those of the request. The password is ignored. If one of the parts
///   contains a line feed, the entry doesn't apply.
///
/// From the entries that apply Git uses
///
/// - `helper`: all values, except an empty one and those before it;
/// - `username`: the last value, unless the request has a user that isn't empty. The subsections of later entries
///   are compared with that user;
/// - `useHttpPath`: the last value, as [`read_boolean`] reads it, or false if there isn't one.
///
/// Names are compared ignoring letter case (ASCII). Allocates the list of helpers, the URL for the request, and
/// buffers for each subsection.
///
/// # Errors
///
/// [`CredentialsError::NoValue`] and [`CredentialsError::NoBoolean`] name the first entry at which Git stops: one
/// that applies and has no value, or a `useHttpPath` that applies and isn't a boolean value.
/// [`CredentialsError::Memory`] if an allocation fails; it says nothing about the entries.
///
/// ```
/// /// The helper that Git asks first for a request.
/// fn first_helper<'a>(
///     alloc: Global,
///     entries: &[Entry<'a>],
///     request: &Request<'a>,
/// ) -> Result<Option<&'a [u8]>, CredentialsError> {
///     let found = credentials_for(alloc, entries, request)?;
///     match found.helpers.first() {
///         None => Ok(None), // `store` of `credential.h.helper=store` for `https://me@h/a`
///         Some(i) => Ok(entries.get(*i).and_then(|entry| entry.value)),
///     }
/// }
/// ```
pub fn credentials_for<'a>(
    alloc: Global,
    entries: &[Entry<'a>],
    request: &Request<'a>,
) -> Result<Credentials<'a>, CredentialsError>
    ensures found { IfOk result
        (λ found. AreCredentials (credential_reading request.now) entries.now found) }
    ensures refused { IfErr result
        (λ error. RefusesCredentials (credential_reading request.now) entries.now error) }
{
    let url = credential_url(alloc, request)?;
    let mut buffer = vec![in alloc; 0u8; needed_buffer_len(url.len())]?;
    match NormalUrl::parse_in(&url, &mut buffer) {
        Ok(place) => all_used(alloc, entries, request, Some(&place)),
        Err(error) => {
            if is_short_buffer(error) {
                Err(CredentialsError::Memory)
            } else {
                all_used(alloc, entries, request, None)
            }
        }
    }
}

/// Returns the settings that Git uses for a request; `place` is the normal form of the URL that Git writes for it,
/// if that URL has one.
fn all_used<'a>(
    alloc: Global,
    entries: &[Entry<'a>],
    request: &Request<'a>,
    place: Option<&NormalUrl<'_>>,
) -> Result<Credentials<'a>, CredentialsError>
    requires { IsFormOf false (urls.credential_url (credential_reading request.now))
        (option_map (λ p. p.now) place) }
    ensures found { IfOk result
        (λ found. AreCredentials (credential_reading request.now) entries.now found) }
    ensures refused { IfErr result
        (λ error. RefusesCredentials (credential_reading request.now) entries.now error) }
{
    let mut used = Credentials {
        helpers: Vec::new(alloc),
        user: request.user,
        use_http_path: false,
    };
    for (i, entry) in entries.iter().enumerate() {
        if applies(alloc, entry, request, place, used.user)? {
            take(&mut used, i, entry, request.user)?;
        }
    }
    Ok(used)
}

/// Updates the settings by an entry that applies.
fn take<'a>(
    used: &mut Credentials<'a>,
    i: usize,
    entry: &Entry<'a>,
    own_user: Option<&[u8]>,
) -> Result<(), CredentialsError>
    ensures taken { OnOk result
        (Takes (option_map (λ t. t.now) own_user.entry) entry.now i used.old used.new) }
    ensures refused { IfErr result (λ error. Refuses entry.now error) }
{
    let value = value_of(entry)?;
    add_helper(&mut used.helpers, i, entry, value)?;
    used.user = user_after(used.user, entry, value, own_user);
    used.use_http_path = path_after(used.use_http_path, entry, value)?;
    Ok(())
}

/// The value of an entry that applies, or an error if it has none.
fn value_of<'a>(entry: &Entry<'a>) -> Result<&'a [u8], CredentialsError>
    ensures { MatchResult result (λ value. entry.now.value ≡ Some value.now)
        (λ error. StopsAt entry.now error) }
{
    match entry.value {
        None => Err(CredentialsError::NoValue { at: entry.at }),
        Some(value) => Ok(value),
    }
}

/// Appends the index of an entry named `helper`, or clears the helpers if its value is empty.
fn add_helper(
    helpers: &mut Vec<usize>,
    i: usize,
    entry: &Entry<'_>,
    value: &[u8],
) -> Result<(), AllocError>
    requires { entry.now.value ≡ Some value.now }
    ensures { OnOk result (AddsHelper entry.now i helpers.old.items helpers.new.items) }
{
    if !entry.is_name("helper") {
        return Ok(());
    }
    if value.is_empty() {
        helpers.clear();
        return Ok(());
    }
    helpers.push(i)?;
    Ok(())
}

/// The user after an entry that applies.
fn user_after<'a>(
    before: Option<&'a [u8]>,
    entry: &Entry<'_>,
    value: &'a [u8],
    own_user: Option<&[u8]>,
) -> Option<&'a [u8]>
    requires { entry.now.value ≡ Some value.now }
    ensures { option_map (λ t. t.now) result ≡ spec.user_after
        (option_map (λ t. t.now) own_user.entry) entry.now (option_map (λ t. t.now) before.entry) }
{
    if entry.is_name("username") && !has_user(own_user) {
        Some(value)
    } else {
        before
    }
}

/// Whether the user is present and not empty.
fn has_user(user: Option<&[u8]>) -> bool
    ensures { result ≡ spec.has_user (option_map (λ t. t.now) user.entry) }
{
    match user {
        None => false,
        Some(user) => !user.is_empty(),
    }
}

/// Whether helpers get the path of an HTTP URL after an entry that applies.
fn path_after(before: bool, entry: &Entry<'_>, value: &[u8]) -> Result<bool, CredentialsError>
    requires { entry.now.value ≡ Some value.now }
    ensures { MatchResult result (λ after. SetsPath entry.now before after)
        (λ error. StopsAt entry.now error) }
{
    if !entry.is_name("usehttppath") {
        return Ok(before);
    }
    match read_boolean(value) {
        None => Err(CredentialsError::NoBoolean { at: entry.at }),
        Some(after) => Ok(after),
    }
}
