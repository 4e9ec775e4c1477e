//! Tests for the fields of a location that are passed to a command as arguments.
//!
//! A command may read a user, a host or a path that begins with `-` as an option, and an option can run
//! programs: `ssh://-oProxyCommand=..@host/repo` is such an attempt. No function here returns a text that
//! begins with `-` as usable.

ghost use Rattle.std.specs.Prelude.{◌≡◌, Some, IfSome, false, option_map};
ghost use Rattle.bstr.specs.BStr.{bstr_bytes};
ghost use Rattle.git_syntax.specs.Bytes.{is_option_like};
ghost use Rattle.git_location.specs.Arguments.{IsNoOption, judgement_of, judgement_of_text, path_argument, usable_text};
ghost use Rattle.git_location.specs.Views.{judgement};
ghost use Rattle.git_location.specs.Safeguards.{PathIsNoOption, UsableIsNoOption};

use crate::url_ref::UrlRef;
use bstr::BStr;
use git_syntax::bytes::{after, starts_with_byte};

/// Whether a field of a location can be an argument of a command.
///
/// Two values are equal if they are the same variant with the same text. The text is borrowed from the
/// location.
///
/// ```
/// fn ssh_user<'a>(url: &'a Url) -> Result<Option<&'a str>, Refused> {
///     match url.user_as_argument() {
///         ArgumentSafety::Absent => Ok(None),
///         ArgumentSafety::Usable(user) => Ok(Some(user)),
///         ArgumentSafety::Dangerous(_) => Err(Refused),
///     }
/// }
/// ```
#[derive(Clone, Copy, Debug, PartialEq, Eq)]
pub enum ArgumentSafety<'a> {
    /// The location has no such field.
    Absent,
    /// The field, which doesn't begin with `-`. It is not quoted for a shell.
    Usable(&'a str),
    /// The field, which begins with `-`. A command may read it as an option.
    Dangerous(&'a str),
}

impl<'a> UrlRef<'a> {
    /// The user as an argument of a command, like [`Url::user_as_argument`].
    ///
    /// ```
    /// fn is_refused(url: &UrlRef<'_>) -> bool {
    ///     // `Dangerous("-Fconfig")` of `ssh://-Fconfig@host/repo`, `Absent` of `ssh://host/repo`
    ///     matches!(url.user_as_argument(), ArgumentSafety::Dangerous(_))
    /// }
    /// ```
    pub fn user_as_argument(&self) -> ArgumentSafety<'a>
        ensures judged { judgement result ≡ judgement_of self.now.user }
        ensures safe { IsNoOption (judgement result) }
    {
        judge(self.user)
    }

    /// The host as an argument of a command, like [`Url::host_as_argument`].
    ///
    /// ```
    /// fn is_refused_host(url: &UrlRef<'_>) -> bool {
    ///     // `Dangerous("-h")` of `ssh://-h/repo`, `Usable("::1")` of `ssh://[::1]/repo`
    ///     matches!(url.host_as_argument(), ArgumentSafety::Dangerous(_))
    /// }
    /// ```
    pub fn host_as_argument(&self) -> ArgumentSafety<'a>
        ensures judged { judgement result ≡ judgement_of self.now.host }
        ensures safe { IsNoOption (judgement result) }
    {
        judge(self.host)
    }

    /// The user, if there is one that doesn't begin with `-`; otherwise `None`.
    ///
    /// ```
    /// fn user_or_git<'a>(url: &UrlRef<'a>) -> &'a str {
    ///     url.user_argument_safe().unwrap_or("git")
    /// }
    /// ```
    pub fn user_argument_safe(&self) -> Option<&'a str>
        ensures usable { option_map (λ t. t.now) result ≡ usable_text (judgement_of self.now.user) }
        ensures own { IfSome result (λ t. self.now.user ≡ Some t.now) }
        ensures safe { IfSome result (λ t. is_option_like t.now ≡ false) }
    {
        usable_text(self.user_as_argument())
    }

    /// The host, if there is one that doesn't begin with `-`; otherwise `None`.
    ///
    /// ```
    /// fn can_connect(url: &UrlRef<'_>) -> bool {
    ///     url.host_argument_safe().is_some()
    /// }
    /// ```
    pub fn host_argument_safe(&self) -> Option<&'a str>
        ensures usable { option_map (λ t. t.now) result ≡ usable_text (judgement_of self.now.host) }
        ensures own { IfSome result (λ t. self.now.host ≡ Some t.now) }
        ensures safe { IfSome result (λ t. is_option_like t.now ≡ false) }
    {
        usable_text(self.host_as_argument())
    }

    /// The whole path, if it begins with `/` and the next byte isn't `-`; otherwise `None`.
    ///
    /// ```
    /// fn served<'a>(url: &UrlRef<'a>) -> Option<BStr<'a>> {
    ///     url.path_argument_safe() // `/repo` of `ssh://host/repo`, none of `ssh://host/-repo`
    /// }
    /// ```
    pub fn path_argument_safe(&self) -> Option<BStr<'a>>
        ensures usable { option_map bstr_bytes result ≡ path_argument self.now.path }
        ensures own { IfSome result (λ p. bstr_bytes p ≡ self.now.path) }
        ensures safe { IfSome result (λ p. is_option_like (bstr_bytes p) ≡ false) }
    {
        let suffix = after(self.path, b'/')?;
        if starts_with_byte(suffix, b'-') {
            return None;
        }
        Some(BStr::new(self.path))
    }
}

/// Whether the field can be an argument of a command.
fn judge(part: Option<&str>) -> ArgumentSafety<'_>
    ensures judged { judgement result ≡ judgement_of (option_map (λ t. t.now) part.entry) }
    ensures safe { IsNoOption (judgement result) }
{
    match part {
        None => ArgumentSafety::Absent,
        Some(text) => judge_text(text),
    }
}

/// Whether the text can be an argument of a command.
fn judge_text(text: &str) -> ArgumentSafety<'_>
    ensures judged { judgement result ≡ judgement_of_text text.now }
    ensures safe { IsNoOption (judgement result) }
{
    if starts_with_byte(text.as_bytes(), b'-') {
        ArgumentSafety::Dangerous(text)
    } else {
        ArgumentSafety::Usable(text)
    }
}

/// The text, if it was classified as usable.
fn usable_text(part: ArgumentSafety<'_>) -> Option<&str>
    ensures { option_map (λ t. t.now) result ≡ usable_text (judgement part.entry) }
{
    match part {
        ArgumentSafety::Usable(text) => Some(text),
        ArgumentSafety::Absent | ArgumentSafety::Dangerous(_) => None,
    }
}

/// No text that may be read as an option is returned as an argument.
///
/// - `usable`: a text that is classified as usable is the field itself, and doesn't begin with `-`.
/// - `path`: the path that is returned is the location's own, and doesn't begin with `-`.
///
/// By this law a program that passes only usable fields to a command passes no option.
pub fn law_arguments()
    ensures usable { UsableIsNoOption }
    ensures path { PathIsNoOption }
{}
