//! Entries of a configuration at which Git stops because of their values.
//!
//! One table states which kind of value each entry needs, and an entry is refused exactly if its value isn't of
//! that kind.

ghost use Rattle.std.specs.Prelude.{◌≡◌, ◌||◌, bytes_eq, option_map};
ghost use Rattle.std.specs.Option.{is_some};
ghost use Rattle.std.specs.List.{list_any};
ghost use Rattle.git_rules.specs.Words as spec;
ghost use Rattle.git_rules.specs.Booleans.{boolean_of};
ghost use Rattle.git_rules.specs.Stops.{credential_kind, default_remote_kind, http_kind, kind_of, own_remote_kind, protocol_kind, remote_kind, rewriting_kind, stop_at, stop_by, stop_unless, stop_with, stop_without};

use crate::boolean::read_boolean;
use crate::config::Entry;
use crate::number::{INT_MAX, SIZE_MAX, read_number};
use crate::word::is_word;
use git_syntax::bytes::starts_with_byte;
use thiserror::Error;

/// The kind of value that an entry needs, as [`kind_of`] returns it. [`stop_at`] has an example.
#[derive(Clone, Copy, Debug, PartialEq, Eq)]
pub enum ValueKind {
    /// A text, which may be empty.
    Text,
    /// A boolean value ([`read_boolean`]). A key without a value is true.
    Boolean,
    /// A boolean value or `auto`. A key without a value is true.
    BooleanOrAuto,
    /// A boolean value or `initial`. A key without a value is true.
    BooleanOrInitial,
    /// A boolean value, which may not be missing.
    WrittenBoolean,
    /// A number whose absolute value is at most [`INT_MAX`] ([`read_number`]).
    Integer,
    /// A number whose absolute value is at most [`SIZE_MAX`] ([`read_number`]).
    Size,
    /// `always`, `user` or `never`, ignoring letter case (ASCII).
    Allowance,
}

/// The reason why Git stops at an entry, as [`stop_at`] returns it. [`stop_at`] has an example.
#[derive(Clone, Copy, Debug, PartialEq, Eq, Error)]
pub enum Stop {
    /// The value is missing, and Git needs one.
    #[error("has no value")]
    NoValue,
    /// The value is neither a boolean value nor the word that Git accepts instead.
    #[error("is no boolean value")]
    NoBoolean,
    /// The value isn't a number, is too large a number, or is missing.
    #[error("is no number that Git takes")]
    NoNumber,
    /// The value isn't `always`, `user` or `never`.
    #[error("is none of always, user and never")]
    NoAllowance,
}

/// Returns the kind of value that an entry needs, or `None` if Git doesn't stop at any value of the entry or if the
/// entry isn't in the table below. [`stop_at`] has an example of the values at which Git stops.
///
/// The table lists the names that affect locations, for Git 2.39.5. Sections and names are compared ignoring letter
/// case (ASCII).
///
/// - `http.*` and `http.<url>.*` (`http_options` in `http.c`);
/// - `credential.*` and `credential.<url>.*`: each needs a value (`credential_config_callback` in `credential.c`);
/// - `url.<base>.insteadOf`, `url.<base>.pushInsteadOf`, `remote.<name>.*` and `remote.pushDefault`
///   (`handle_config` in `remote.c`);
/// - `protocol.allow` and `protocol.<name>.allow` (`transport.c`).
pub fn kind_of(entry: &Entry<'_>) -> Option<ValueKind>
    ensures { result ≡ kind_of entry.now }
{
    if entry.is_section("http") {
        http_kind(entry.name)
    } else if entry.is_section("credential") {
        Some(credential_kind(entry.name))
    } else if entry.is_section("url") {
        rewriting_kind(entry)
    } else if entry.is_section("remote") {
        remote_kind(entry)
    } else if entry.is_section("protocol") {
        protocol_kind(entry.name)
    } else {
        None
    }
}

/// Returns the reason why Git stops at an entry, or `None` if it accepts the value or doesn't read it.
///
/// Git stops when it reads the entry: at `http.*` in each command that uses HTTP and at `credential.*` in each
/// command that asks for credentials, if the entry applies to the URL; at `url.*` and `remote.*` in each command
/// that looks for a remote; at `protocol.*` if the entry decides about a transport. A path that begins with `~` and
/// the name of an unknown user is not reported: Git asks the system for the user.
///
/// ```
/// /// The places of the entries at which Git stops.
/// fn stops(alloc: Global, entries: &[Entry<'_>]) -> Result<Vec<usize>, AllocError> {
///     let mut places = Vec::new(alloc);
///     for entry in entries {
///         if stop_at(entry).is_some() {
///             places.push(entry.at)?; // of `http.postBuffer=x`, and of `http.extraHeader` without a value
///         }
///     }
///     Ok(places)
/// }
/// ```
pub fn stop_at(entry: &Entry<'_>) -> Option<Stop>
    ensures { result ≡ stop_at entry.now }
{
    let kind = kind_of(entry)?;
    stop_by(kind, entry.value)
}

/// The reason why Git stops at a value that must be of this kind, if it does.
fn stop_by(kind: ValueKind, value: Option<&[u8]>) -> Option<Stop>
    ensures { result ≡ stop_by kind (option_map (λ v. v.now) value.entry) }
{
    match value {
        Some(value) => stop_with(kind, value),
        None => stop_without(kind),
    }
}

/// The reason why Git stops at an entry without a value, if it does.
fn stop_without(kind: ValueKind) -> Option<Stop>
    ensures { result ≡ stop_without kind }
{
    match kind {
        ValueKind::Boolean | ValueKind::BooleanOrAuto | ValueKind::BooleanOrInitial => None,
        ValueKind::Integer | ValueKind::Size => Some(Stop::NoNumber),
        ValueKind::Text | ValueKind::WrittenBoolean | ValueKind::Allowance => Some(Stop::NoValue),
    }
}

/// The reason why Git stops at this value, if it does.
fn stop_with(kind: ValueKind, value: &[u8]) -> Option<Stop>
    ensures { result ≡ stop_with kind value.now }
{
    match kind {
        ValueKind::Text => None,
        ValueKind::Boolean | ValueKind::WrittenBoolean => {
            stop_unless(is_boolean(value), Stop::NoBoolean)
        }
        ValueKind::BooleanOrAuto => { stop_unless(is_boolean_or(value, "auto"), Stop::NoBoolean) }
        ValueKind::BooleanOrInitial => {
            stop_unless(is_boolean_or(value, "initial"), Stop::NoBoolean)
        }
        ValueKind::Integer => stop_unless(read_number(value, INT_MAX).is_some(), Stop::NoNumber),
        ValueKind::Size => stop_unless(read_number(value, SIZE_MAX).is_some(), Stop::NoNumber),
        ValueKind::Allowance => stop_unless(is_one_of(value, &ALLOWANCES), Stop::NoAllowance),
    }
}

/// The reason, unless the value is accepted.
fn stop_unless(taken: bool, reason: Stop) -> Option<Stop>
    ensures { result ≡ stop_unless taken reason }
{
    if taken { None } else { Some(reason) }
}

/// Whether the text is a boolean value.
fn is_boolean(value: &[u8]) -> bool
    ensures { result ≡ is_some (boolean_of value.now) }
{
    read_boolean(value).is_some()
}

/// Whether the text is this word or a boolean value.
fn is_boolean_or(value: &[u8], word: &str) -> bool
    ensures { result ≡ (bytes_eq value.now word.now || is_some (boolean_of value.now)) }
{
    value == word.as_bytes() || is_boolean(value)
}

// ---- the table

/// Names of `http.*` that need a text.
const HTTP_TEXTS: [&str; 18] = [
    "version",
    "sslcipherlist",
    "sslversion",
    "sslcert",
    "sslkey",
    "sslcapath",
    "sslcainfo",
    "proxy",
    "proxyauthmethod",
    "proxysslcert",
    "proxysslkey",
    "proxysslcainfo",
    "cookiefile",
    "useragent",
    "delegation",
    "pinnedpubkey",
    "extraheader",
    "curloptresolve",
];

/// Names of `http.*` that Git reads as boolean values.
const HTTP_BOOLEANS: [&str; 8] = [
    "sslverify",
    "sslcertpasswordprotected",
    "ssltry",
    "schannelcheckrevoke",
    "schannelusesslcainfo",
    "noepsv",
    "proxysslcertpasswordprotected",
    "savecookies",
];

/// Names of `http.*` that Git reads as numbers.
const HTTP_INTEGERS: [&str; 4] = [
    "minsessions",
    "maxrequests",
    "lowspeedlimit",
    "lowspeedtime",
];

/// Names of `remote.<name>.*` that need a text.
const REMOTE_TEXTS: [&str; 9] = [
    "url",
    "pushurl",
    "push",
    "fetch",
    "receivepack",
    "uploadpack",
    "proxy",
    "proxyauthmethod",
    "vcs",
];

/// Names of `remote.<name>.*` that Git reads as boolean values.
const REMOTE_BOOLEANS: [&str; 5] = [
    "mirror",
    "skipdefaultupdate",
    "skipfetchall",
    "prune",
    "prunetags",
];

/// Names of `url.<base>.*` that need a text.
const REWRITING_TEXTS: [&str; 2] = ["insteadof", "pushinsteadof"];

/// The values of `protocol.allow`.
const ALLOWANCES: [&str; 3] = ["always", "user", "never"];

/// The kind of value that an entry of `http.*` with this name needs.
fn http_kind(name: &[u8]) -> Option<ValueKind>
    ensures { result ≡ http_kind name.now }
{
    if is_one_of(name, &HTTP_TEXTS) {
        Some(ValueKind::Text)
    } else if is_one_of(name, &HTTP_BOOLEANS) {
        Some(ValueKind::Boolean)
    } else if is_word(name, "emptyauth") {
        Some(ValueKind::BooleanOrAuto)
    } else if is_word(name, "followredirects") {
        Some(ValueKind::BooleanOrInitial)
    } else if is_one_of(name, &HTTP_INTEGERS) {
        Some(ValueKind::Integer)
    } else if is_word(name, "postbuffer") {
        Some(ValueKind::Size)
    } else {
        None
    }
}

/// The kind of value that an entry of `credential.*` with this name needs.
fn credential_kind(name: &[u8]) -> ValueKind
    ensures { result ≡ credential_kind name.now }
{
    if is_word(name, "usehttppath") {
        ValueKind::WrittenBoolean
    } else {
        ValueKind::Text
    }
}

/// The kind of value that this entry of `url.*` needs.
fn rewriting_kind(entry: &Entry<'_>) -> Option<ValueKind>
    ensures { result ≡ rewriting_kind entry.now }
{
    if entry.subsection.is_some() && is_one_of(entry.name, &REWRITING_TEXTS) {
        Some(ValueKind::Text)
    } else {
        None
    }
}

/// The kind of value that this entry of `remote.*` needs. Git ignores remotes whose name begins with `/`.
fn remote_kind(entry: &Entry<'_>) -> Option<ValueKind>
    ensures { result ≡ remote_kind entry.now }
{
    match entry.subsection {
        None => default_remote_kind(entry.name),
        Some(remote) if starts_with_byte(remote, b'/') => None,
        Some(_) => own_remote_kind(entry.name),
    }
}

/// The kind of value that an entry of `remote.*` with this name and without a remote needs.
fn default_remote_kind(name: &[u8]) -> Option<ValueKind>
    ensures { result ≡ default_remote_kind name.now }
{
    if is_word(name, "pushdefault") {
        Some(ValueKind::Text)
    } else {
        None
    }
}

/// The kind of value that an entry of `remote.<name>.*` with this name needs.
fn own_remote_kind(name: &[u8]) -> Option<ValueKind>
    ensures { result ≡ own_remote_kind name.now }
{
    if is_one_of(name, &REMOTE_TEXTS) {
        Some(ValueKind::Text)
    } else if is_one_of(name, &REMOTE_BOOLEANS) {
        Some(ValueKind::Boolean)
    } else {
        None
    }
}

/// The kind of value that an entry of `protocol.*` with this name needs.
fn protocol_kind(name: &[u8]) -> Option<ValueKind>
    ensures { result ≡ protocol_kind name.now }
{
    if is_word(name, "allow") {
        Some(ValueKind::Allowance)
    } else {
        None
    }
}

/// Whether the text is one of the words, ignoring letter case.
fn is_one_of(text: &[u8], words: &[&str]) -> bool
    ensures { result ≡ list_any (λ word. spec.is_word text.now word.now) words.now }
{
    words.iter().any(|word| is_word(text, word))
}
