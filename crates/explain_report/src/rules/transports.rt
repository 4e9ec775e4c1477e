//! The transport of a text, and whether Git uses it by a configuration and the variables of the environment.

ghost use Rattle.std.specs.Prelude.{◌≡◌, ◌↔◌, IfOk, IsTrue, Ok, option_map, string_bytes};
ghost use Rattle.git_rules.specs.Protocols.{IsLastOf};
ghost use Rattle.explain_report.specs.Rules as spec;
ghost use Rattle.explain_report.specs.Secrets.{text_shown};
ghost use Rattle.explain_report.specs.Rules.{HasUsedTransport, IsAllowedToUsers, IsEntryAt, IsRefusing, IsUsed, IsVariableOf, ReportsPermission};

use crate::memory::both;
use crate::rules::setting::Setting;
use crate::text::secret::shown_text;
use git_rules::config::Entry;
use git_rules::protocols::text::{NoTransport, transport_of};
use git_rules::protocols::{Permission, Protocols, Reason};
use serde::Serialize;
use std::alloc::{AllocError, Global};

/// A transport, and whether it may be used.
#[derive(Drop, Serialize)]
pub struct Transport {
    /// The name of the transport or the remote helper, with `redacted` in place of possible secrets.
    pub name: String,
    pub permission: Verdict,
    /// The variable of the environment that decides.
    pub variable: Option<&'static str>,
    /// The entry that decides. If there is neither an entry nor a variable, Git's default decides.
    pub entry: Option<Setting>,
}

/// The verdict of Git on a transport.
#[derive(Clone, Copy, Serialize)]
#[serde(rename_all = "snake_case")]
pub enum Verdict {
    Allowed,
    Refused,
    /// Git stops: the value of the entry that decides isn't one of `protocol.allow`.
    UnknownAllowance,
    /// Git stops: the value of the variable that decides isn't a boolean.
    UnknownFromUser,
}

impl Verdict {
    /// Returns the name of the verdict in the JSON object.
    pub fn name(self) -> &'static str {
        match self {
            Verdict::Allowed => "allowed",
            Verdict::Refused => "refused",
            Verdict::UnknownAllowance => "unknown_allowance",
            Verdict::UnknownFromUser => "unknown_from_user",
        }
    }

    /// Returns the verdict in words, which follow the name of the transport.
    pub fn words(self) -> &'static str {
        match self {
            Verdict::Allowed => "is allowed",
            Verdict::Refused => "is refused",
            Verdict::UnknownAllowance | Verdict::UnknownFromUser => "is not used, as Git stops",
        }
    }
}

/// The reason why Git has no transport for a text.
#[derive(Drop, Serialize)]
pub struct Lack {
    /// The name of the reason.
    pub reason: &'static str,
    /// The reason in words.
    pub words: String,
}

/// Returns the transport that Git uses for a text, or the reason why it has none.
pub fn transport_for(
    alloc: Global,
    protocols: &Protocols<'_>,
    text: &[u8],
) -> Result<(Option<Transport>, Option<Lack>), AllocError> {
    match transport_of(text) {
        Ok(name) => Ok((Some(Transport::named(alloc, protocols, name)?), None)),
        Err(why) => Ok((None, Some(Lack::of(alloc, why)?))),
    }
}

/// Whether Git has a transport for a text, and uses it.
pub(crate) fn has_used_transport(protocols: &Protocols<'_>, text: &[u8]) -> bool
    ensures { HasUsedTransport protocols.now text.now result }
{
    match transport_of(text) {
        Ok(name) => is_used(protocols, name),
        Err(_) => false,
    }
}

/// Whether Git uses the transport with this name.
fn is_used(protocols: &Protocols<'_>, name: &str) -> bool
    ensures { IsUsed protocols.now name.now result }
{
    protocols.permission(name).is_allowed()
}

impl Lack {
    /// The reason with its words.
    fn of(alloc: Global, why: NoTransport) -> Result<Lack, AllocError> {
        Ok(Lack {
            reason: name_of(why),
            words: why.to_string(alloc)?,
        })
    }
}

/// The name of a reason.
fn name_of(why: NoTransport) -> &'static str {
    match why {
        NoTransport::ByteZero => "byte_zero",
        NoTransport::OptionLike => "option_like",
        NoTransport::Rsync => "rsync",
        NoTransport::UnknownScheme => "unknown_scheme",
    }
}

impl Transport {
    /// Returns the transport with this name.
    pub fn named(
        alloc: Global,
        protocols: &Protocols<'_>,
        name: &str,
    ) -> Result<Transport, AllocError>
        ensures name { IfOk result (λ t. string_bytes t.name ≡ text_shown name.now) }
        ensures decides { IfOk result (λ t. ReportsPermission protocols.now name.now t.permission
            (option_map (λ v. v.now) t.variable) (option_map (λ e. e.at) t.entry)) }
    {
        let permission = protocols.permission(name);
        let entry = entry_at(alloc, protocols.entries, place_of(permission))?;
        let (entry, own) = both(entry, shown_text(alloc, name.as_bytes()))?;
        Ok(Transport {
            name: own,
            permission: verdict_of(permission),
            variable: variable_of(protocols, name, permission),
            entry,
        })
    }
}

/// The verdict of a permission.
fn verdict_of(permission: Permission) -> Verdict
    ensures { result ≡ spec.verdict_of permission }
{
    match permission {
        Permission::Allowed(_) => Verdict::Allowed,
        Permission::Refused(_) => Verdict::Refused,
        Permission::UnknownAllowance { at: _ } => Verdict::UnknownAllowance,
        Permission::UnknownFromUser => Verdict::UnknownFromUser,
    }
}

/// The offset of the entry that decides, if an entry does.
fn place_of(permission: Permission) -> Option<usize>
    ensures { result ≡ spec.place_of permission }
{
    match permission {
        Permission::Allowed(by) | Permission::Refused(by) => place_in(by),
        Permission::UnknownAllowance { at } => Some(at),
        Permission::UnknownFromUser => None,
    }
}

/// The offset of the entry that a reason names, if it names one.
fn place_in(by: Reason) -> Option<usize>
    ensures { result ≡ spec.place_in by }
{
    match by {
        Reason::Entry { at } => Some(at),
        Reason::AllowList | Reason::Default => None,
    }
}

/// The variable of the environment that decides, if one does: without it the permission is different.
fn variable_of(
    protocols: &Protocols<'_>,
    name: &str,
    permission: Permission,
) -> Option<&'static str>
    ensures { IsVariableOf protocols.now name.now permission (option_map (λ v. v.now) result) }
{
    match permission {
        Permission::Allowed(by) => allowing(by),
        Permission::Refused(by) => refusing(protocols, name, by),
        Permission::UnknownAllowance { at: _ } => None,
        Permission::UnknownFromUser => Some("GIT_PROTOCOL_FROM_USER"),
    }
}

/// The variable that allows a transport for this reason.
fn allowing(by: Reason) -> Option<&'static str>
    ensures { option_map (λ v. v.now) result ≡ spec.list_variable by }
{
    match by {
        Reason::AllowList => Some("GIT_ALLOW_PROTOCOL"),
        Reason::Entry { at: _ } | Reason::Default => None,
    }
}

/// The variable that refuses a transport for this reason.
fn refusing(protocols: &Protocols<'_>, name: &str, by: Reason) -> Option<&'static str>
    ensures { IsRefusing protocols.now name.now by (option_map (λ v. v.now) result) }
{
    if matches!(by, Reason::AllowList) {
        return Some("GIT_ALLOW_PROTOCOL");
    }
    if is_for_users(protocols, name) {
        return Some("GIT_PROTOCOL_FROM_USER");
    }
    None
}

/// Whether the configuration allows the transport to users.
fn is_for_users(protocols: &Protocols<'_>, name: &str) -> bool
    ensures { IsAllowedToUsers protocols.now name.now result }
{
    let of_users = Protocols {
        entries: protocols.entries,
        allow_list: None,
        from_user: None,
    };
    of_users.permission(name).is_allowed()
}

/// The entry that begins at this offset, as it is shown.
fn entry_at(
    alloc: Global,
    entries: &[Entry<'_>],
    place: Option<usize>,
) -> Result<Option<Setting>, AllocError>
    ensures { IfOk result (λ s. IsEntryAt entries.now place (option_map (λ e. e.at) s)) }
{
    let Some(place) = place else {
        return Ok(None);
    };
    match last_at(entries, place) {
        None => Ok(None),
        Some(entry) => Ok(Some(Setting::of(alloc, entry)?)),
    }
}

/// The last entry that begins at this offset. There is at most one.
fn last_at<'b, 'a>(entries: &'b [Entry<'a>], place: usize) -> Option<&'b Entry<'a>>
    ensures { IsLastOf (λ e. e.at ≡ place) entries.now (option_map (λ e. e.now) result) }
{
    let mut front = entries;
    while let [rest @ .., last] = front {
        if is_at(last, place) {
            return Some(last);
        }
        front = rest;
    }
    None
}

/// Whether the entry begins at this offset.
fn is_at(entry: &Entry<'_>, place: usize) -> bool
    ensures { IsTrue result ↔ (entry.now.at ≡ place) }
{
    entry.at == place
}
