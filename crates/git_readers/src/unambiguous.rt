//! The conditions of the class of unambiguous locations, and the first of them, in the order of
//! [`Condition`], that a location doesn't meet.

ghost use Rattle.std.specs.Prelude.{◌≡◌, ◌↔◌, IsTrue, IsNone, IfSome};
ghost use Rattle.git_readers.specs.Conditions as spec;
ghost use Rattle.git_readers.specs.Conditions.{IsFirstUnmet, IsUnambiguous, Meets};

use crate::host::{has_plain_host, has_plain_password, has_plain_scp_host, has_plain_user};
use crate::path::{begins_plainly, has_plain_bytes, has_scp_slash, lacks_dots};
use git_class::agreement::agrees_with_git;
use git_location::url_ref::UrlRef;
use git_syntax::escape::decodes_to;
use git_syntax::scheme::SchemeRef;

/// A condition under which readers find the same fields in the text of a location. The conditions are in the
/// order in which they are tested. [`unmet_condition`] has an example.
#[derive(Clone, Copy, PartialEq, Eq, Debug)]
pub enum Condition {
    /// The location is settled, and Git reads the same place in its text.
    Git,
    /// The path is written without escapes.
    Escapes,
    /// The host is an IPv4 address, or a name of at most 253 bytes: labels of at most 63 lower-case letters,
    /// digits and inner `-`, of which none begins with `xn--` and the last begins with a letter. One of the
    /// first two labels has a byte other than digits.
    Host,
    /// The bytes of the user are letters, digits, `-`, `.`, `_` and `~`, and it doesn't begin with `-`.
    User,
    /// The bytes of the password are letters, digits, `-`, `.`, `_` and `~`.
    Password,
    /// The port isn't 0.
    Port,
    /// The bytes of the path are letters, digits and a few marks, of which a path in the scp form has fewer. A
    /// local path is any text without control characters, `:` and `\`.
    PathBytes,
    /// The path of a URL doesn't begin with `//`; that of Secure Shell, of `git://` and of a file isn't written
    /// with `/~~`, `/-` or `/x:` at its front, and that of a file not with `/~`; that of the scp form doesn't
    /// begin with digits and `/`. A local path has no `//`, isn't just `/`, and has no `@` if it doesn't begin
    /// with `/`.
    PathStart,
    /// The path has no segment `.` or `..`. A local path may have them.
    DotSegment,
    /// A host of the scp form has at least two bytes, and without a user it isn't the name of a scheme.
    ScpHost,
    /// The path of the scp form has a `/` between two bytes.
    ScpPath,
}

/// The forms of texts. Some conditions depend on the form. Definitions name it, and no call returns it.
#[derive(Clone, Copy, PartialEq, Eq, Debug)]
pub enum Form {
    /// A URL of HTTP.
    Web,
    /// Any other URL that meets `Git`: of Secure Shell, of `git://` or of a file.
    Transport,
    /// The scp form.
    Scp,
    /// A local path.
    Local,
}

/// The form of the text of the location.
pub(crate) fn form_of(url: &UrlRef<'_>) -> Form
    ensures { result ≡ spec.form url.now }
{
    match (&url.scheme, url.serialize_alternative_form) {
        (SchemeRef::File, true) => Form::Local,
        (SchemeRef::Ssh, true) => Form::Scp,
        (SchemeRef::Http | SchemeRef::Https, _) => Form::Web,
        _ => Form::Transport,
    }
}

/// Whether every reader of a family is known to find the same fields in the text of the location.
///
/// [`law_unambiguous`](crate::law::law_unambiguous) describes these readers. If the result is `false`, some
/// of them may still find the same fields.
///
/// ```
/// /// Whether a checker may pass on a remote: what connects to it finds the host that was checked.
/// fn may_pass_on(url: &UrlRef<'_>) -> bool {
///     is_unambiguous(url) // not `ssh://::1:22/p`, where some read the port 22
/// }
/// ```
pub fn is_unambiguous(url: &UrlRef<'_>) -> bool
    ensures { IsTrue result ↔ IsUnambiguous url.now }
{
    unmet_condition(url).is_none()
}

/// The first condition that the location doesn't meet, or `None` if it meets all of them.
///
/// ```
/// /// Whether readers may find another host in the text of the location.
/// fn is_host_odd(url: &UrlRef<'_>) -> bool {
///     unmet_condition(url) == Some(Condition::Host) // of `https://a_b/p`
/// }
/// ```
pub fn unmet_condition(url: &UrlRef<'_>) -> Option<Condition>
    ensures met { IsNone result ↔ IsUnambiguous url.now }
    ensures first { IfSome result (λ condition. IsFirstUnmet condition url.now) }
{
    if !agrees_with_git(url) {
        Some(Condition::Git)
    } else if !is_unescaped(url) {
        Some(Condition::Escapes)
    } else if !has_plain_host(url) {
        Some(Condition::Host)
    } else if !has_plain_user(url) {
        Some(Condition::User)
    } else if !has_plain_password(url) {
        Some(Condition::Password)
    } else if !has_real_port(url) {
        Some(Condition::Port)
    } else if !has_plain_bytes(url) {
        Some(Condition::PathBytes)
    } else if !begins_plainly(url) {
        Some(Condition::PathStart)
    } else if !lacks_dots(url) {
        Some(Condition::DotSegment)
    } else if !has_plain_scp_host(url) {
        Some(Condition::ScpHost)
    } else if !has_scp_slash(url) {
        Some(Condition::ScpPath)
    } else {
        None
    }
}

/// Whether the path of the location is written without a retained spelling.
fn is_unescaped(url: &UrlRef<'_>) -> bool
    ensures { IsTrue result ↔ Meets Condition.Escapes url.now }
{
    match url.spelling {
        None => true,
        Some(spelling) => !decodes_to(spelling, url.path),
    }
}

/// Whether the port isn't 0.
fn has_real_port(url: &UrlRef<'_>) -> bool
    ensures { IsTrue result ↔ Meets Condition.Port url.now }
{
    url.port != Some(0)
}
