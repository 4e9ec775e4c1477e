//! The entries of a `.gitmodules` file that Git's fsck refuses.
//!
//! Each reason is decided for one entry, and an entry is refused for a reason exactly if its definition holds.

ghost use Rattle.std.specs.Prelude.{◌≡◌, ◌≢◌, ◌↔◌, codes, IsTrue, MatchOption};
ghost use Rattle.git_modules.specs.SubmoduleChecks.{IsRefused, git_name};
ghost use Rattle.git_modules.specs.declared.submodules.refusal.Refused.{Refused};

use crate::submodules::url::is_refused_url;
use crate::submodules::{is_refused_name, submodule_of, value_by};
use git_rules::config::Entry;
use git_syntax::bytes::starts_with_byte;
use thiserror::Error;

/// The reason why Git's fsck refuses an entry of a `.gitmodules` file. [`check`] has an example.
#[derive(Clone, Copy, Debug, PartialEq, Eq, Error)]
pub enum Refused {
    /// The name of the submodule is empty, or has a component `..`.
    #[error("the name of the submodule leads out of its folder")]
    Name,
    /// The URL begins with `-`, has several lines, or has no host.
    #[error("the URL of the submodule is dangerous")]
    Url,
    /// The path begins with `-`.
    #[error("the path of the submodule looks like an option")]
    Path,
    /// The way to update is a command, `!command`.
    #[error("the submodule is updated by a command")]
    Update,
}

impl Refused {
    /// Git's name of the reason, as in `fsck.gitmodulesUrl`. [`check`] has an example.
    pub fn as_str(self) -> &'static str
        ensures { result.now ≡ git_name self }
    {
        match self {
            Refused::Name => "gitmodulesName",
            Refused::Url => "gitmodulesUrl",
            Refused::Path => "gitmodulesPath",
            Refused::Update => "gitmodulesUpdate",
        }
    }
}

/// The parts of an entry that Git's fsck refuses: its name, its value, or both. [`check`] has an example.
#[derive(Clone, Copy, Debug, PartialEq, Eq)]
pub struct Refusals {
    /// [`Refused::Name`], if the name is refused.
    pub name: Option<Refused>,
    /// Any other reason, if the value is refused.
    pub value: Option<Refused>,
}

/// Returns the reasons for which Git's fsck refuses an entry of a `.gitmodules` file (`fsck_gitmodules_fn` in
/// `fsck.c` of Git 2.39.5). `git index-pack --strict` refuses the same, and so do `git fetch` and `git
/// receive-pack` if `fsckObjects` is set.
///
/// Only entries of the section `submodule` with a subsection are checked. Section and name are compared ignoring
/// letter case (ASCII).
///
/// - [`Refused::Name`]: the subsection is empty, or has a component `..` between `/` and `\`.
/// - [`Refused::Path`]: `path` begins with `-`.
/// - [`Refused::Update`]: `update` begins with `!`.
/// - [`Refused::Url`]: `url` begins with `-`; or it is relative (it begins with `./` or `../`, or the same with
///   `\`) or begins with `git://`, and has a line feed after Git decoded it (`url_decode` in `url.c`, which leaves
///   the text before the first colon unchanged); or it consists of `./` and `../`, with at least one `../`, and a
///   rest that begins with `:` or `/`; or it begins with `http`, `https`, `ftp` or `ftps` and `::` or `://`, and
///   Git's credential code finds no `://`, no protocol or no host in it (after the `::`, if it has that), or a line
///   feed in a part. Unlike a helper, fsck accepts a carriage return.
///
/// An entry without a value has no refused value. Git's reading ends at a byte 0, so no entry of a file contains
/// one; here a URL for HTTP or FTP with a byte 0 is refused. This function doesn't check whether a text is a
/// configuration file at all, which fsck reports as `gitmodulesParse`; the reader of the file does.
///
/// ```
/// /// What fsck says of the entries, by Git's names.
/// fn reasons(alloc: Global, entries: &[Entry<'_>]) -> Result<Vec<&'static str>, AllocError> {
///     let mut found = Vec::new(alloc);
///     for entry in entries {
///         let refusals = check(entry);
///         if let Some(reason) = refusals.name {
///             found.push(reason.as_str())?; // of `submodule....url`, whose name is `..`
///         }
///         if let Some(reason) = refusals.value {
///             found.push(reason.as_str())?; // of `submodule.a.url=https:///p`
///         }
///     }
///     Ok(found)
/// }
/// ```
pub fn check(entry: &Entry<'_>) -> Refusals
    ensures name { MatchOption result.name (¬ IsRefused entry.now Refused.Name)
        (λ reason. (reason ≡ Refused.Name) × IsRefused entry.now reason) }
    ensures value { MatchOption result.value
        ((reason : Refused) → reason ≢ Refused.Name → ¬ IsRefused entry.now reason)
        (λ reason. (reason ≢ Refused.Name) × IsRefused entry.now reason) }
{
    Refusals {
        name: check_name(entry),
        value: check_value(entry),
    }
}

/// The reason to refuse the name, if fsck does.
fn check_name(entry: &Entry<'_>) -> Option<Refused>
    ensures { MatchOption result (¬ IsRefused entry.now Refused.Name)
        (λ reason. (reason ≡ Refused.Name) × IsRefused entry.now reason) }
{
    let name = submodule_of(entry)?;
    if is_refused_name(name) {
        Some(Refused::Name)
    } else {
        None
    }
}

/// The reason to refuse the value, if fsck does.
fn check_value(entry: &Entry<'_>) -> Option<Refused>
    ensures { MatchOption result
        ((reason : Refused) → reason ≢ Refused.Name → ¬ IsRefused entry.now reason)
        (λ reason. (reason ≢ Refused.Name) × IsRefused entry.now reason) }
{
    if has_refused_url(entry) {
        Some(Refused::Url)
    } else if has_refused_path(entry) {
        Some(Refused::Path)
    } else if has_command(entry) {
        Some(Refused::Update)
    } else {
        None
    }
}

/// Whether the entry sets a URL that fsck refuses.
fn has_refused_url(entry: &Entry<'_>) -> bool
    ensures { IsTrue result ↔ IsRefused entry.now Refused.Url }
{
    match value_by(entry, "url") {
        Some(url) => is_refused_url(url),
        None => false,
    }
}

/// Whether the entry sets a path that fsck refuses.
fn has_refused_path(entry: &Entry<'_>) -> bool
    ensures { IsTrue result ↔ IsRefused entry.now Refused.Path }
{
    match value_by(entry, "path") {
        Some(path) => starts_with_byte(path, b'-'),
        None => false,
    }
}

/// Whether the entry sets a command as the way to update.
fn has_command(entry: &Entry<'_>) -> bool
    ensures { IsTrue result ↔ IsRefused entry.now Refused.Update }
{
    match value_by(entry, "update") {
        Some(update) => starts_with_byte(update, b'!'),
        None => false,
    }
}
