//! Tests for the fields of a location that are passed to a command as arguments, like those of the borrowed
//! location.

ghost use Rattle.std.specs.Prelude.{◌≡◌, Some, IfSome, false, option_map};
ghost use Rattle.bstr.specs.BStr.{bstr_bytes};
ghost use Rattle.git_syntax.specs.Bytes.{is_option_like};
ghost use Rattle.git_location.specs.Arguments.{IsNoOption, judgement_of, path_argument, usable_text};
ghost use Rattle.git_location.specs.Views.{judgement};

use crate::location::Url;
use bstr::BStr;
use git_location::argument::ArgumentSafety;

impl Url {
    /// The user as an argument of a command. Allocates nothing.
    ///
    /// ```
    /// fn is_refused(url: &Url) -> bool {
    ///     // `Dangerous("-Fconfig")` of `ssh://-Fconfig@host/repo`, `Absent` of `ssh://host/repo`
    ///     matches!(url.user_as_argument(), ArgumentSafety::Dangerous(_))
    /// }
    /// ```
    pub fn user_as_argument(&self) -> ArgumentSafety<'_>
        ensures judged { judgement result ≡ judgement_of self.now.user }
        ensures safe { IsNoOption (judgement result) }
    {
        self.as_ref().user_as_argument()
    }

    /// The host as an argument of a command. Allocates nothing.
    ///
    /// A host may begin with `-`. For Secure Shell an IPv6 text has no brackets, for other schemes it has them
    /// if the text had them.
    ///
    /// ```
    /// fn is_refused_host(url: &Url) -> bool {
    ///     // `Dangerous("-h")` of `ssh://-h/repo`, `Usable("::1")` of `ssh://[::1]/repo`
    ///     matches!(url.host_as_argument(), ArgumentSafety::Dangerous(_))
    /// }
    /// ```
    pub fn host_as_argument(&self) -> ArgumentSafety<'_>
        ensures judged { judgement result ≡ judgement_of self.now.host }
        ensures safe { IsNoOption (judgement result) }
    {
        self.as_ref().host_as_argument()
    }

    /// The user, if there is one that doesn't begin with `-`. Allocates nothing.
    ///
    /// The result is also `None` if there is no user: [`Url::user_as_argument`] distinguishes the two.
    ///
    /// ```
    /// fn user_or_git(url: &Url) -> &str {
    ///     url.user_argument_safe().unwrap_or("git")
    /// }
    /// ```
    pub fn user_argument_safe(&self) -> Option<&str>
        ensures usable { option_map (λ t. t.now) result ≡ usable_text (judgement_of self.now.user) }
        ensures own { IfSome result (λ t. self.now.user ≡ Some t.now) }
        ensures safe { IfSome result (λ t. is_option_like t.now ≡ false) }
    {
        self.as_ref().user_argument_safe()
    }

    /// The host, if there is one that doesn't begin with `-`. Allocates nothing.
    ///
    /// The result is also `None` if there is no host: [`Url::host_as_argument`] distinguishes the two.
    ///
    /// ```
    /// fn can_connect(url: &Url) -> bool {
    ///     url.host_argument_safe().is_some()
    /// }
    /// ```
    pub fn host_argument_safe(&self) -> Option<&str>
        ensures usable { option_map (λ t. t.now) result ≡ usable_text (judgement_of self.now.host) }
        ensures own { IfSome result (λ t. self.now.host ≡ Some t.now) }
        ensures safe { IfSome result (λ t. is_option_like t.now ≡ false) }
    {
        self.as_ref().host_argument_safe()
    }

    /// The whole path, if it begins with `/` and the next byte isn't `-`. Allocates nothing.
    ///
    /// A path that begins with `~` or is relative is not returned; the path `/` is. The path is decoded, may be
    /// any bytes, and is not quoted for a shell.
    ///
    /// ```
    /// fn served(url: &Url) -> Option<BStr<'_>> {
    ///     url.path_argument_safe() // `/repo` of `ssh://host/repo`, none of `ssh://host/-repo`
    /// }
    /// ```
    pub fn path_argument_safe(&self) -> Option<BStr<'_>>
        ensures usable { option_map bstr_bytes result ≡ path_argument self.now.path }
        ensures own { IfSome result (λ p. bstr_bytes p ≡ self.now.path) }
        ensures safe { IfSome result (λ p. is_option_like (bstr_bytes p) ≡ false) }
    {
        self.as_ref().path_argument_safe()
    }
}
