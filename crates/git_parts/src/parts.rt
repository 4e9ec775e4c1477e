//! The places of the parts of a location in its text, which is cut at the marks of the grammar.

ghost use Rattle.std.specs.Prelude.{◌≡◌, ◌+◌, ◌≤◌, IfErr, IfOk, codes, length};
ghost use Rattle.git_syntax.specs.Flaws.{OtherUrlForm, UrlForm};
ghost use Rattle.git_syntax.specs.Grammar.{AddressedForm, HelperCut};
ghost use Rattle.git_syntax.specs.Internal.Forms.{PlainScp};
ghost use Rattle.git_refusals.specs.Internal.Readable.{IsSpelled};
ghost use Rattle.git_refusals.specs.Reasons.{Refused};
ghost use Rattle.git_parts.specs.Parts.{FrontSpans, HasParts, path_span};

mod authority;

use crate::parts::authority::{authority_parts, unless_empty};
use git_refusals::read::read;
use git_refusals::refusal::Refusal;
use git_syntax::bytes::{cut_before_path, last_cut};
use git_syntax::classify::{Form, classify};
use git_syntax::rules::rules_of;

/// A part of a text: `len` bytes from index `at`. [`Parts`] has an example.
#[derive(Clone, Copy, Debug, PartialEq, Eq)]
pub struct Span {
    /// The number of bytes before it.
    pub at: usize,
    /// Its length, in bytes.
    pub len: usize,
}

/// The form of a text that spells a location.
///
/// ```
/// fn is_scp(parts: &Parts) -> bool {
///     parts.form == PartForm::Scp // of `git@host:repo`
/// }
/// ```
#[derive(Clone, Copy, Debug, PartialEq, Eq)]
pub enum PartForm {
    /// A remote helper, `name::address`, or a URL of the helper `ext`.
    RemoteHelper,
    /// Any other URL.
    Url,
    /// The scp form.
    Scp,
    /// A local path.
    Local,
}

/// The places of the parts of a location in its text. The parts are not decoded; the text between two parts is
/// a mark of the form.
///
/// ```
/// /// The port's digits in a text, leading zeros among them.
/// fn digits<'a>(text: &'a [u8], parts: &Parts) -> Option<&'a [u8]> {
///     let port = parts.port?;
///     text.get(port.at..)?.get(..port.len) // `0022` of `ssh://h:0022/p`
/// }
/// ```
#[derive(Clone, Copy, Debug, PartialEq, Eq)]
pub struct Parts {
    /// The form.
    pub form: PartForm,
    /// The scheme of a URL, or the name of a remote helper. A URL of the helper `ext` has none.
    pub scheme: Option<Span>,
    /// The user, if an `@` ends user information. It may be empty.
    pub user: Option<Span>,
    /// The password, if the user information has a `:`. It may be empty.
    pub password: Option<Span>,
    /// The host, with its brackets and with a colon that a port doesn't follow.
    pub host: Option<Span>,
    /// The digits of the port.
    pub port: Option<Span>,
    /// The path, in HTTP with query and fragment; the address of a remote helper.
    pub path: Span,
}

/// Returns the places of the parts of the text's location.
///
/// # Errors
///
/// Returns the one refusal of the text, if it spells no location.
///
/// ```
/// /// The front of a text that may be shown: all before its password, if it has one.
/// fn shown_front(text: &[u8]) -> Result<&[u8], Refusal> {
///     match parts_of(text)?.password {
///         Some(password) => Ok(text.split_at(password.at.min(text.len())).0),
///         None => Ok(text),
///     }
/// }
/// ```
pub fn parts_of(text: &[u8]) -> Result<Parts, Refusal>
    ensures parts { IfOk result (λ parts. HasParts text.now parts) }
    ensures spelled { IfOk result (λ parts. IsSpelled text.now) }
    ensures refused { IfErr result (λ refusal. Refused text.now refusal) }
    ensures within { IfErr result (λ refusal. refusal.at + refusal.len ≤ length text.now) }
{
    match read(text) {
        Ok(_) => Ok(cut_parts(text)),
        Err(refusal) => Err(refusal),
    }
}

/// The parts of a text that spells a location.
fn cut_parts(text: &[u8]) -> Parts
    requires { IsSpelled text.now }
    ensures { HasParts text.now result }
{
    match classify(text) {
        Form::Empty => whole(PartForm::Local, text),
        Form::Helper { name, address } => helper_parts(text, name, address),
        Form::Url { scheme, rest } => url_parts(text, scheme, rest),
        Form::Addressed {
            user,
            address,
            path,
        } => addressed_parts(text, user, address, path),
        Form::Scp { front, path } => scp_parts(text, front, path),
        Form::Local => whole(PartForm::Local, text),
    }
}

/// A text that is one part.
fn whole(form: PartForm, text: &[u8]) -> Parts
    ensures { result ≡ path_span form text.now }
{
    Parts {
        form,
        scheme: None,
        user: None,
        password: None,
        host: None,
        port: None,
        path: Span {
            at: 0,
            len: text.len(),
        },
    }
}

/// The parts of a remote helper.
fn helper_parts(text: &[u8], name: &[u8], address: &[u8]) -> Parts
    requires { HelperCut text.now name.now address.now }
    ensures { HasParts text.now result }
{
    Parts {
        scheme: Some(Span {
            at: 0,
            len: name.len(),
        }),
        path: Span {
            at: name.len() + 2,
            len: address.len(),
        },
        ..whole(PartForm::RemoteHelper, text)
    }
}

/// The parts of a URL.
fn url_parts(text: &[u8], scheme: &[u8], rest: &[u8]) -> Parts
    requires form { UrlForm text.now scheme.now rest.now }
    requires spelled { IsSpelled text.now }
    ensures { HasParts text.now result }
{
    if scheme == b"file".as_slice() {
        return file_parts(text, rest);
    }
    if scheme == b"ext".as_slice() {
        return whole(PartForm::RemoteHelper, text);
    }
    other_parts(text, scheme, rest)
}

/// The parts of a file URL: the path begins at the first `/` after the mark.
fn file_parts(text: &[u8], rest: &[u8]) -> Parts
    requires form { UrlForm text.now (codes "file") rest.now }
    requires spelled { IsSpelled text.now }
    ensures { HasParts text.now result }
{
    let (host, path) = cut_before_path(rest, false);
    Parts {
        scheme: Some(Span { at: 0, len: 4 }),
        host: unless_empty(7, host),
        path: Span {
            at: 7 + host.len(),
            len: path.len(),
        },
        ..whole(PartForm::Url, text)
    }
}

/// The parts of any other URL.
fn other_parts(text: &[u8], scheme: &[u8], rest: &[u8]) -> Parts
    requires form { OtherUrlForm text.now scheme.now rest.now }
    requires not_ext { ¬ (scheme.now ≡ codes "ext") }
    requires spelled { IsSpelled text.now }
    ensures { HasParts text.now result }
{
    let (authority, path) = cut_before_path(rest, rules_of(scheme).web);
    let start = scheme.len() + 3;
    let parts = authority_parts(start, authority);
    Parts {
        form: PartForm::Url,
        scheme: Some(Span {
            at: 0,
            len: scheme.len(),
        }),
        user: parts.user,
        password: parts.password,
        host: parts.host,
        port: parts.port,
        path: Span {
            at: start + authority.len(),
            len: path.len(),
        },
    }
}

/// The parts of the scp form.
fn scp_parts(text: &[u8], front: &[u8], path: &[u8]) -> Parts
    requires { PlainScp text.now front.now path.now }
    ensures { HasParts text.now result }
{
    let (user, host) = front_parts(front);
    Parts {
        user,
        host,
        path: Span {
            at: front.len() + 1,
            len: path.len(),
        },
        ..whole(PartForm::Scp, text)
    }
}

/// The user and the host in the front of the scp form.
fn front_parts(front: &[u8]) -> (Option<Span>, Option<Span>)
    ensures { FrontSpans front.now result.0 result.1 }
{
    match last_cut(front, b'@') {
        None => (
            None,
            Some(Span {
                at: 0,
                len: front.len(),
            }),
        ),
        Some((user, host)) => (
            Some(Span {
                at: 0,
                len: user.len(),
            }),
            Some(Span {
                at: user.len() + 1,
                len: host.len(),
            }),
        ),
    }
}

/// The parts of the form `user@[address]:path`.
fn addressed_parts(text: &[u8], user: &[u8], address: &[u8], path: &[u8]) -> Parts
    requires { AddressedForm text.now user.now address.now path.now }
    ensures { HasParts text.now result }
{
    Parts {
        user: Some(Span {
            at: 0,
            len: user.len(),
        }),
        host: Some(Span {
            at: user.len() + 1,
            len: address.len() + 2,
        }),
        path: Span {
            at: user.len() + address.len() + 4,
            len: path.len(),
        },
        ..whole(PartForm::Scp, text)
    }
}
