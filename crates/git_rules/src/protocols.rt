//! Which transports may be used, and which one a location uses.
//!
//! The decision is that of Git 2.39: by the list, by the last entry of a key, or by default. The result has
//! the reason of the decision, or the error at which Git stops. No function here reads the environment.

ghost use Rattle.std.specs.Prelude.{◌≡◌, ◌↔◌, IsTrue, option_map};
ghost use Rattle.git_syntax.specs.Schemes.{scheme_text};
ghost use Rattle.git_rules.specs.Protocols.{Counts, Decides, IsAllowed, IsLastOf, OnePermission, SectionDecides, SetsAllow, allowance_of, by_entry, by_list, by_test, by_value, default_allowance, is_from_user, is_listed, is_trusted, under};

pub mod text;

use crate::boolean::read_boolean;
use crate::config::Entry;
use crate::word::is_word;
use git_location::url_ref::UrlRef;
use git_syntax::bytes::cut;
use std::marker::Model;

/// The name of the transport that Git uses for the location, or of the remote helper that it runs: `ssh`, `git`,
/// `file`, `http`, `https`, `ext`, or the name of another helper.
///
/// Git looks this name up in `protocol.<name>.allow` and `GIT_ALLOW_PROTOCOL`. It depends only on the scheme: `ssh`
/// for `git+ssh://` and the scp form, `file` for paths, `SSH` for `SSH://`, for which Git runs a helper of that
/// name. Before that, Git refuses each text that begins with `rsync:` but not with `rsync::`. This function still
/// returns a name for such a location, `rsync` for a URL and `ssh` in scp form.
/// [`transport_of`](text::transport_of) returns the transport of a text as Git reads it. `remote.<name>.vcs`, which
/// selects another helper, is ignored.
///
/// ```
/// fn is_secure_shell(url: &UrlRef<'_>) -> bool {
///     transport(url) == "ssh" // of `git@host:repo` and `ssh://host/repo`
/// }
/// ```
pub fn transport<'a>(url: &UrlRef<'a>) -> &'a str
    ensures { result.now ≡ scheme_text url.now.scheme }
{
    url.scheme.as_str()
}

/// The settings that decide which transports may be used: a configuration, and two variables of the environment.
///
/// The caller reads the variables and sets the fields to their values, which are borrowed.
///
/// ```
/// /// Whether a location that the user didn't type may be fetched from.
/// fn may_follow(url: &UrlRef<'_>, entries: &[Entry<'_>]) -> bool {
///     let protocols = Protocols {
///         entries,
///         allow_list: None,
///         from_user: Some(b"0"),
///     };
///     protocols.permission(transport(url)).is_allowed() // of `ssh://host/repo`, but not of `/repo` and `ext::sh`
/// }
/// ```
#[derive(Drop)]
pub struct Protocols<'a> {
    /// The entries of the configuration, in their order. Entries of other keys are ignored.
    pub entries: &'a [Entry<'a>],
    /// The value of `GIT_ALLOW_PROTOCOL`, names separated by colons, or `None` if it isn't set. The empty text is a
    /// list that allows only the transport with the empty name.
    pub allow_list: Option<&'a [u8]>,
    /// The value of `GIT_PROTOCOL_FROM_USER`, a boolean value, or `None` if it isn't set, which Git takes as true.
    pub from_user: Option<&'a [u8]>,
}

impl<'a> Model for Protocols<'a> {
    ghost use Rattle.git_rules.specs.Policies.{Policy};

    ghost Value = { Policy };

    ghost use Rattle.git_rules.specs.PolicyView.{policy};

    ghost view = { policy };
}

/// Git's decision about a transport, and the reason. [`Permission::is_allowed`] has an example.
#[derive(Clone, Copy, Debug, PartialEq, Eq)]
pub enum Permission {
    /// Git uses it.
    Allowed(Reason),
    /// Git refuses it.
    Refused(Reason),
    /// Git stops: the value of the entry that decides is missing, or isn't `always`, `user` or `never`.
    UnknownAllowance {
        /// The byte offset of the entry: its field `at`.
        at: usize,
    },
    /// Git stops: it needs the value of `GIT_PROTOCOL_FROM_USER`, which isn't a boolean value.
    UnknownFromUser,
}

/// The reason why a transport is allowed or refused. [`Protocols::permission`] has an example.
#[derive(Clone, Copy, Debug, PartialEq, Eq)]
pub enum Reason {
    /// The list of `GIT_ALLOW_PROTOCOL`.
    AllowList,
    /// The last entry of `protocol.<name>.allow`, or else of `protocol.allow`.
    Entry {
        /// The byte offset of the entry: its field `at`.
        at: usize,
    },
    /// Git's default if nothing is configured.
    Default,
}

/// The value of an entry for transports.
#[derive(Clone, Copy)]
enum Allowance {
    /// The transport is allowed.
    Always,
    /// The transport is allowed for locations that come from the user.
    User,
    /// The transport is refused.
    Never,
}

impl Permission {
    /// Whether Git uses the transport; false if Git stops.
    ///
    /// ```
    /// fn is_helper_allowed(protocols: &Protocols<'_>) -> bool {
    ///     protocols.permission("ext").is_allowed()
    /// }
    /// ```
    pub fn is_allowed(self) -> bool
        ensures { IsTrue result ↔ IsAllowed self }
    {
        matches!(self, Permission::Allowed(_))
    }
}

impl Protocols<'_> {
    /// Returns the decision of Git 2.39 about a transport, by its name, which [`transport`] returns for a location.
    ///
    /// 1. If `GIT_ALLOW_PROTOCOL` is set, it allows the names in it and refuses all others.
    /// 2. Otherwise the last entry of `protocol.<name>.allow` decides, or else the last one of `protocol.allow`, by
    ///    its value: `always`, `never` or `user`, ignoring letter case (ASCII).
    /// 3. Otherwise `http`, `https`, `git` and `ssh` are treated as with `always`, `ext` as with `never`, and all
    ///    others, including `file`, as with `user`.
    ///
    /// With `user`, the transport is allowed if `GIT_PROTOCOL_FROM_USER` is true or not set. Names are
    /// case-sensitive. A value that Git can't read is reported only if Git stops for it because it needs it: the
    /// value of an entry if that entry decides, and `GIT_PROTOCOL_FROM_USER` with `user`. Reads each entry at
    /// most twice. The rules are those of git(1) and of `protocol.allow` in git-config(1).
    ///
    /// Git's helper for HTTP checks again, for `http`, `https`, `ftp` and `ftps`: whether it may use them, and
    /// whether it may follow redirections to them, the latter as if `GIT_PROTOCOL_FROM_USER` were false. So even if
    /// the transport is allowed, Git may stop later because of an entry of one of the others, or of
    /// `GIT_PROTOCOL_FROM_USER`.
    ///
    /// ```
    /// fn refusal_place(protocols: &Protocols<'_>, name: &str) -> Option<usize> {
    ///     match protocols.permission(name) {
    ///         Permission::Refused(Reason::Entry { at }) => Some(at),
    ///         _ => None,
    ///     }
    /// }
    /// ```
    pub fn permission(&self, name: &str) -> Permission
        ensures { Decides self.now name.now result }
    {
        match self.allow_list {
            Some(list) => by_list(list, name),
            None => by_entry(name, counting(self.entries, name), self.from_user),
        }
    }
}

/// The decision by the list.
fn by_list(list: &[u8], name: &str) -> Permission
    ensures { result ≡ by_list list.now name.now }
{
    by_test(Reason::AllowList, Some(is_listed(list, name.as_bytes())))
}

/// Whether the name is in the list.
fn is_listed(list: &[u8], name: &[u8]) -> bool
    ensures { result ≡ is_listed list.now name.now }
{
    let mut rest = list;
    while let Some((piece, suffix)) = cut(rest, b':') {
        if piece == name {
            return true;
        }
        rest = suffix;
    }
    rest == name
}

/// The entry that decides about a transport.
fn counting<'a>(entries: &'a [Entry<'a>], name: &str) -> Option<&'a Entry<'a>>
    ensures { Counts entries.now name.now (option_map (λ e. e.now) result) }
{
    match last_allow(entries, Some(name)) {
        Some(entry) => Some(entry),
        None => last_allow(entries, None),
    }
}

/// The last entry of `protocol.<name>.allow`, or without a name the last one of `protocol.allow`.
fn last_allow<'a>(entries: &'a [Entry<'a>], name: Option<&str>) -> Option<&'a Entry<'a>>
    ensures { IsLastOf (SetsAllow (option_map (λ t. t.now) name.entry)) entries.now (option_map (λ e. e.now) result) }
{
    let mut front = entries;
    while let [rest @ .., last] = front {
        if sets_allow(last, name) {
            return Some(last);
        }
        front = rest;
    }
    None
}

/// Whether the key of the entry is `protocol.<name>.allow`, or without a name `protocol.allow`.
fn sets_allow(entry: &Entry<'_>, name: Option<&str>) -> bool
    ensures { IsTrue result ↔ SetsAllow (option_map (λ t. t.now) name.entry) entry.now }
{
    entry.sets("protocol", "allow") && is_same(entry.subsection, name)
}

/// Whether both are absent or both have the same text.
fn is_same(subsection: Option<&[u8]>, name: Option<&str>) -> bool
    ensures { IsTrue result ↔ (option_map (λ t. t.now) subsection.entry ≡ option_map (λ t. t.now) name.entry) }
{
    match (subsection, name) {
        (None, None) => true,
        (Some(subsection), Some(name)) => subsection == name.as_bytes(),
        (None, Some(_)) | (Some(_), None) => false,
    }
}

/// The decision by the entry that decides, or by default.
fn by_entry(name: &str, entry: Option<&Entry<'_>>, from_user: Option<&[u8]>) -> Permission
    ensures { result ≡ by_entry name.now (option_map (λ e. e.now) entry.entry) (option_map (λ t. t.now) from_user.entry) }
{
    match entry {
        None => under(default_allowance(name), Reason::Default, from_user),
        Some(entry) => by_value(read_allowance(entry.value), entry.at, from_user),
    }
}

/// The decision by the value of the entry at this byte offset.
fn by_value(allowance: Option<Allowance>, at: usize, from_user: Option<&[u8]>) -> Permission
    ensures { result ≡ by_value allowance at (option_map (λ t. t.now) from_user.entry) }
{
    match allowance {
        None => Permission::UnknownAllowance { at },
        Some(allowance) => under(allowance, Reason::Entry { at }, from_user),
    }
}

/// The decision by an allowance.
fn under(allowance: Allowance, by: Reason, from_user: Option<&[u8]>) -> Permission
    ensures { result ≡ under allowance by (option_map (λ t. t.now) from_user.entry) }
{
    match allowance {
        Allowance::Always => Permission::Allowed(by),
        Allowance::User => by_test(by, read_from_user(from_user)),
        Allowance::Never => Permission::Refused(by),
    }
}

/// The decision by a test, whose result is `None` if Git can't read `GIT_PROTOCOL_FROM_USER`.
fn by_test(by: Reason, test: Option<bool>) -> Permission
    ensures { result ≡ by_test by test }
{
    match test {
        Some(true) => Permission::Allowed(by),
        Some(false) => Permission::Refused(by),
        None => Permission::UnknownFromUser,
    }
}

/// Whether the location comes from the user, by the value of `GIT_PROTOCOL_FROM_USER`.
fn read_from_user(value: Option<&[u8]>) -> Option<bool>
    ensures { result ≡ is_from_user (option_map (λ t. t.now) value.entry) }
{
    match value {
        None => Some(true),
        Some(text) => read_boolean(text),
    }
}

/// The allowance that the value of an entry spells.
fn read_allowance(value: Option<&[u8]>) -> Option<Allowance>
    ensures { result ≡ allowance_of (option_map (λ t. t.now) value.entry) }
{
    let text = value?;
    if is_word(text, "always") {
        Some(Allowance::Always)
    } else if is_word(text, "user") {
        Some(Allowance::User)
    } else if is_word(text, "never") {
        Some(Allowance::Never)
    } else {
        None
    }
}

/// The allowance if nothing is configured.
fn default_allowance(name: &str) -> Allowance
    ensures { result ≡ default_allowance name.now }
{
    if is_trusted(name) {
        Allowance::Always
    } else if name == "ext" {
        Allowance::Never
    } else {
        Allowance::User
    }
}

/// Whether the transport is allowed if nothing is configured.
fn is_trusted(name: &str) -> bool
    ensures { result ≡ is_trusted name.now }
{
    name == "http" || name == "https" || name == "git" || name == "ssh"
}

/// Only the entries of the section `protocol` decide: [`Protocols::permission`] returns the same with these alone,
/// which [`entries_of`](crate::config::entries_of) returns, as with all entries.
pub fn law_section()
    ensures { SectionDecides }
{}

/// Git's decision is unique: [`Protocols::permission`] returns the only one.
pub fn law_permission()
    ensures { OnePermission }
{}
