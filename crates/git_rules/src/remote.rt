//! The settings of a remote in a configuration: the URLs that Git fetches from and pushes to, and four values.
//!
//! The URLs are in the order of the entries, each rewritten by the rules. An error names the entry at which Git
//! stops.

ghost use Rattle.std.specs.Prelude.{◌≡◌, [], IfErr, IfOk, OnOk, option_map};
ghost use Rattle.git_rules.specs.Remotes.{AddsRuled, AreRewritten, AreRuled, ArePushUrls, AreUrls, HasPushUrls, HaveValues, first_of, has_none, has_read_name, is_its_own_url, is_remote, is_subsection_of, lacks_value, last_of, proxy_key, receivepack_key, uploadpack_key, url_key, value_for, values_of, vcs_key};
ghost use Rattle.git_rules.specs.RemoteAnswers.{ChecksValues, RefusesRemote};

pub mod law;

use crate::config::Entry;
use crate::rewrite::Rewrites;
use crate::rewrite::outcome::Rewritten;
use std::alloc::{AllocError, Global};
use std::marker::Model;
use thiserror::Error;

/// The settings that `git fetch NAME` and `git push NAME` use. All texts are borrowed.
///
/// The entries of `NAME` are those whose section is `remote`, ignoring letter case (ASCII), and whose subsection is
/// `NAME`, byte for byte; their names are compared ignoring letter case. The fields hold the values that Git 2.39.5
/// has after it read the configuration (`remote.c`).
///
/// ```
/// /// The URL that `git fetch` uses; none where the remote has a foreign helper and no URL.
/// fn fetched_from(alloc: Global, remote: &Remote<'_>) -> Result<Option<BString>, AllocError> {
///     match remote.urls.first() {
///         None => Ok(None),
///         Some(url) => Ok(Some(url.to_bstring(alloc)?)),
///     }
/// }
/// ```
#[derive(Drop)]
pub struct Remote<'a> {
    /// Each value of `url`, rewritten by the rules for fetching. Git fetches from the first. If there is neither
    /// `url` nor `vcs`, the only URL is the name of the remote.
    pub urls: Vec<Rewritten<'a>>,
    /// The URLs that Git pushes to, in its order. `git push` pushes to all of them.
    pub push_urls: Vec<Rewritten<'a>>,
    /// The last value of `vcs`: Git runs the helper `git-remote-<vcs>` for the remote.
    pub vcs: Option<&'a [u8]>,
    /// The last value of `proxy`, which may be empty.
    pub proxy: Option<&'a [u8]>,
    /// The first value of `uploadpack`: the program that Git runs on the server for a fetch.
    pub uploadpack: Option<&'a [u8]>,
    /// The first value of `receivepack`: the program that Git runs on the server for a push.
    pub receivepack: Option<&'a [u8]>,
}

impl<'a> Model for Remote<'a> {
    ghost use Rattle.git_rules.specs.Remotes.{GitRemote};

    ghost Value = { GitRemote };

    ghost use Rattle.git_rules.specs.RemoteView.{git_remote};

    ghost view = { git_remote };
}

/// An error of [`Remote::of`], which has an example.
#[derive(Clone, Copy, Debug, PartialEq, Eq, Error)]
pub enum RemoteError {
    /// An allocation failed.
    #[error("out of memory")]
    Memory,
    /// An entry of a remote has no value. Git stops there, whichever remote it was called for.
    #[error("the setting at byte {at} has no value")]
    NoValue {
        /// The byte offset of the entry in the text of the configuration.
        at: usize,
    },
}

impl From<AllocError> for RemoteError {
    ghost use Rattle.git_rules.specs.declared.remote.RemoteError.TheVariants.{Memory};

    ghost from_gives = { λ _ e. e ≡ Memory };

    fn from(_: AllocError) -> RemoteError {
        RemoteError::Memory
    }
}

impl<'a> Remote<'a> {
    /// Returns the remote of this name. The rules come from the same entries
    /// ([`Rewrites::from_entries`](crate::rewrite::Rewrites::from_entries)); a program may leave some of them out.
    ///
    /// - `urls`: the values of `url`, each rewritten as by `rewrite_fetch`. An empty value is a URL like any other.
    /// - `push_urls`: the values of `pushurl`, each rewritten as by `rewrite_fetch`. If there is no `pushurl`, they
    ///   are only the values of `url` to which a rule for pushing applies, rewritten by these rules. If there are
    ///   none of these either, Git pushes to `urls`. So with `url = gh:a`, `url = b` and `url.push:.pushInsteadOf =
    ///   gh:` Git only pushes to `push:a`.
    /// - If there is neither `url` nor `vcs`, the name is the only URL. If a rule for pushing applies to it, the
    ///   result is a push URL, after the values of `pushurl` if there are any.
    ///
    /// Git ignores an entry whose subsection begins with `/`. An entry with an empty subsection belongs to the
    /// remote whose name is a dot and the name of the entry in lower case, as `remote..url` to `.url`.
    ///
    /// No file is opened: Git reads `.git/remotes/NAME` and `.git/branches/NAME`, if it finds one of them, before
    /// it takes the name for a URL. Groups of remotes (`remotes.NAME`) are not looked up, and other entries of a
    /// remote, such as `fetch` and `tagOpt`, are not checked. Allocates as the two lists grow.
    ///
    /// # Errors
    ///
    /// [`RemoteError::NoValue`] names the first entry of any remote that has one of the six names and no value, at
    /// which Git stops. [`RemoteError::Memory`] if an allocation fails and each entry has a value.
    ///
    /// ```
    /// /// The texts that `git push NAME` pushes to, each with a line feed after it.
    /// fn push_lines<'a>(
    ///     alloc: Global,
    ///     entries: &[Entry<'a>],
    ///     rules: &Rewrites<'a>,
    ///     name: &'a [u8],
    /// ) -> Result<Vec<u8>, RemoteError> {
    ///     let remote = Remote::of(alloc, entries, rules, name)?;
    ///     let mut lines = Vec::new(alloc);
    ///     for url in &remote.push_urls {
    ///         lines.extend_from_slice(url.to_bstring(alloc)?.as_bytes())?;
    ///         lines.extend_from_slice(b"\n")?;
    ///     }
    ///     Ok(lines)
    /// }
    /// ```
    pub fn of(
        alloc: Global,
        entries: &[Entry<'a>],
        rules: &Rewrites<'a>,
        name: &'a [u8],
    ) -> Result<Remote<'a>, RemoteError>
        ensures values { IfOk result (λ remote. HaveValues entries.now) }
        ensures urls { IfOk result (λ remote. AreUrls rules.now name.now entries.now remote.urls) }
        ensures push_urls { IfOk result
            (λ remote. ArePushUrls rules.now name.now entries.now remote.push_urls) }
        ensures vcs { IfOk result (λ remote. remote.vcs ≡ last_of (values_of name.now vcs_key entries.now)) }
        ensures proxy { IfOk result
            (λ remote. remote.proxy ≡ last_of (values_of name.now proxy_key entries.now)) }
        ensures uploadpack { IfOk result
            (λ remote. remote.uploadpack ≡ first_of (values_of name.now uploadpack_key entries.now)) }
        ensures receivepack { IfOk result
            (λ remote. remote.receivepack ≡ first_of (values_of name.now receivepack_key entries.now)) }
        ensures refused { IfErr result (λ error. RefusesRemote entries.now error) }
    {
        check_values(entries)?;
        Ok(Remote {
            urls: urls_of(alloc, entries, rules, name)?,
            push_urls: pushed_to(alloc, entries, rules, name)?,
            vcs: last_value(entries, name, "vcs"),
            proxy: last_value(entries, name, "proxy"),
            uploadpack: first_value(entries, name, "uploadpack"),
            receivepack: first_value(entries, name, "receivepack"),
        })
    }
}

/// Checks that each entry of a remote has a value, and reports the first one without a value.
fn check_values(entries: &[Entry<'_>]) -> Result<(), RemoteError>
    ensures { ChecksValues entries.now result }
{
    for entry in entries {
        if lacks_value(entry) {
            return Err(RemoteError::NoValue { at: entry.at });
        }
    }
    Ok(())
}

/// Whether the entry lacks a value that Git reads for a remote.
fn lacks_value(entry: &Entry<'_>) -> bool
    ensures { result ≡ lacks_value entry.now }
{
    entry.value.is_none()
        && is_remote(entry.subsection)
        && entry.is_section("remote")
        && has_read_name(entry)
}

/// Whether Git takes the subsection for a remote.
fn is_remote(subsection: Option<&[u8]>) -> bool
    ensures { result ≡ is_remote (option_map (λ t. t.now) subsection.entry) }
{
    match subsection {
        None => false,
        Some(subsection) => subsection.first() != Some(&b'/'),
    }
}

/// Whether the entry has one of the names that Git reads.
fn has_read_name(entry: &Entry<'_>) -> bool
    ensures { result ≡ has_read_name entry.now }
{
    entry.is_name("url")
        || entry.is_name("pushurl")
        || entry.is_name("vcs")
        || entry.is_name("proxy")
        || entry.is_name("uploadpack")
        || entry.is_name("receivepack")
}

/// The value that the entry sets for the remote and this key, if any.
fn value_for<'a>(entry: &Entry<'a>, name: &[u8], key: &str) -> Option<&'a [u8]>
    ensures { option_map (λ t. t.now) result ≡ value_for name.now key.now entry.now }
{
    let subsection = entry.subsection?;
    if is_subsection_of(name, key, subsection) && entry.sets("remote", key) {
        entry.value
    } else {
        None
    }
}

/// Whether the subsection of an entry with this key denotes the remote.
fn is_subsection_of(name: &[u8], key: &str, subsection: &[u8]) -> bool
    ensures { result ≡ is_subsection_of name.now key.now subsection.now }
{
    match subsection.first() {
        None => is_dot_and(name, key),
        Some(first) => *first != b'/' && subsection == name,
    }
}

/// Whether the name is a dot and the key.
fn is_dot_and(name: &[u8], key: &str) -> bool
    ensures { result ≡ is_subsection_of name.now key.now [] }
{
    match name.split_first() {
        None => false,
        Some((first, rest)) => *first == b'.' && rest == key.as_bytes(),
    }
}

/// The first value that entries set for the remote and this key.
fn first_value<'a>(entries: &[Entry<'a>], name: &[u8], key: &str) -> Option<&'a [u8]>
    ensures { option_map (λ t. t.now) result ≡ first_of (values_of name.now key.now entries.now) }
{
    for entry in entries {
        if let Some(value) = value_for(entry, name, key) {
            return Some(value);
        }
    }
    None
}

/// The last value that entries set for the remote and this key.
fn last_value<'a>(entries: &[Entry<'a>], name: &[u8], key: &str) -> Option<&'a [u8]>
    ensures { option_map (λ t. t.now) result ≡ last_of (values_of name.now key.now entries.now) }
{
    let mut last = None;
    for entry in entries {
        if let Some(value) = value_for(entry, name, key) {
            last = Some(value);
        }
    }
    last
}

/// Whether the name of the remote is its only URL.
fn is_its_own_url(entries: &[Entry<'_>], name: &[u8]) -> bool
    ensures { result ≡ is_its_own_url name.now entries.now }
{
    first_value(entries, name, "url").is_none() && first_value(entries, name, "vcs").is_none()
}

/// The URLs of the remote, rewritten for fetching.
fn urls_of<'a>(
    alloc: Global,
    entries: &[Entry<'a>],
    rules: &Rewrites<'a>,
    name: &'a [u8],
) -> Result<Vec<Rewritten<'a>>, AllocError>
    ensures { IfOk result (λ found. AreUrls rules.now name.now entries.now found.items) }
{
    if is_its_own_url(entries, name) {
        let mut found = Vec::new(alloc);
        found.push(rules.rewrite_fetch(name))?;
        return Ok(found);
    }
    rewritten_values(alloc, entries, rules, name, "url")
}

/// The URLs that Git pushes to.
fn pushed_to<'a>(
    alloc: Global,
    entries: &[Entry<'a>],
    rules: &Rewrites<'a>,
    name: &'a [u8],
) -> Result<Vec<Rewritten<'a>>, AllocError>
    ensures { IfOk result (λ found. ArePushUrls rules.now name.now entries.now found.items) }
{
    let found = push_urls_of(alloc, entries, rules, name)?;
    if found.is_empty() {
        return urls_of(alloc, entries, rules, name);
    }
    Ok(found)
}

/// The push URLs of the remote: those of its entries, and the results of rules for pushing.
fn push_urls_of<'a>(
    alloc: Global,
    entries: &[Entry<'a>],
    rules: &Rewrites<'a>,
    name: &'a [u8],
) -> Result<Vec<Rewritten<'a>>, AllocError>
    ensures { IfOk result (λ found. HasPushUrls rules.now name.now entries.now found.items) }
{
    let mut found = rewritten_values(alloc, entries, rules, name, "pushurl")?;
    if is_its_own_url(entries, name) {
        push_ruled(&mut found, rules, name)?;
        return Ok(found);
    }
    if found.is_empty() {
        return ruled_urls(alloc, entries, rules, name);
    }
    Ok(found)
}

/// The values that entries set for the remote and this key, rewritten by the rules for fetching.
fn rewritten_values<'a>(
    alloc: Global,
    entries: &[Entry<'a>],
    rules: &Rewrites<'a>,
    name: &[u8],
    key: &str,
) -> Result<Vec<Rewritten<'a>>, AllocError>
    ensures { IfOk result (λ found. AreRewritten rules.now.fetching
        (values_of name.now key.now entries.now) found.items) }
{
    let mut found = Vec::new(alloc);
    for entry in entries {
        if let Some(value) = value_for(entry, name, key) {
            found.push(rules.rewrite_fetch(value))?;
        }
    }
    Ok(found)
}

/// The URLs of the remote to which a rule for pushing applies, rewritten by those rules.
fn ruled_urls<'a>(
    alloc: Global,
    entries: &[Entry<'a>],
    rules: &Rewrites<'a>,
    name: &[u8],
) -> Result<Vec<Rewritten<'a>>, AllocError>
    ensures { IfOk result (λ found. AreRuled rules.now.pushing
        (values_of name.now url_key entries.now) found.items) }
{
    let mut found = Vec::new(alloc);
    for entry in entries {
        if let Some(value) = value_for(entry, name, "url") {
            push_ruled(&mut found, rules, value)?;
        }
    }
    Ok(found)
}

/// Appends the text as the rules for pushing rewrite it, if one of them applies.
fn push_ruled<'a>(
    found: &mut Vec<Rewritten<'a>>,
    rules: &Rewrites<'a>,
    text: &'a [u8],
) -> Result<(), AllocError>
    ensures { OnOk result (AddsRuled rules.now.pushing text.now found.old.items found.new.items) }
{
    let outcome = rules.rewrite_by_push_rules(text);
    if outcome.is_rewritten() {
        found.push(outcome)?;
    }
    Ok(())
}
