//! The words with which Git runs Secure Shell for a location.
//!
//! The words are those of the definitions (`specs/SecureShell.antt`). No word except the options is taken for an
//! option, and a shell reads the service and the path in the remote command (`specs/ShellWords.antt`). If Git reads
//! the same place in the location's text, the words are Git's own (`law_git_words`).
//!
//! `ssh_command_for` returns the command of a location, if it has one. `request` has the options of the call,
//! `checks` refuses unsafe parts, `command` has the parts of a command, and `words` writes its words.
//! `program` determines which program Git runs with them. No program is run here.

ghost use Rattle.std.specs.Prelude.{◌≡◌, IfErr, IfOk, None, OnOk, Some, map};
ghost use Rattle.bstr.specs.Owned.{bstring_bytes};
ghost use Rattle.git_rules.specs.SecureShell as spec;
ghost use Rattle.git_rules.specs.SecureLaws.{GivesOwnWords};
ghost use Rattle.git_rules.specs.SshAnswers as answer;

mod checks;
mod command;
pub mod program;
mod request;
mod words;

use bstr::BString;
use checks::{check_destination, check_path, check_request};
pub use command::SshCommand;
use git_laws::laws::law_git;
use git_location::url_ref::UrlRef;
use git_syntax::scheme::SchemeRef;
pub use request::{AddressFamily, SshRequest};
use std::alloc::{AllocError, Global};
use thiserror::Error;

/// The service that Git requests from the server.
///
/// ```
/// fn service_of(is_push: bool) -> Service {
///     if is_push { Service::ReceivePack } else { Service::UploadPack }
/// }
/// ```
#[derive(Clone, Copy, Debug, PartialEq, Eq)]
pub enum Service {
    /// `git-upload-pack`, for `git fetch`, `git clone` and `git ls-remote`.
    UploadPack,
    /// `git-receive-pack`, for `git push`.
    ReceivePack,
    /// `git-upload-archive`, for `git archive --remote`.
    UploadArchive,
}

/// The variant of the Secure Shell program, which determines its options: the values of `ssh.variant` in
/// git-config(1).
///
/// The value `auto` isn't a variant: Git then detects the variant by the name of the program, or by running it with
/// `-G`. [`SshProgram::of`](program::SshProgram::of) detects it as Git does.
///
/// ```
/// /// The variant that git-config(1) has for a value of `ssh.variant`; none for `auto`.
/// fn variant_of(value: &str) -> Option<SshVariant> {
///     match value {
///         "auto" => None,
///         "simple" => Some(SshVariant::Simple),
///         "plink" => Some(SshVariant::Plink),
///         "putty" => Some(SshVariant::Putty),
///         "tortoiseplink" => Some(SshVariant::TortoisePlink),
///         _ => Some(SshVariant::Ssh),
///     }
/// }
/// ```
#[derive(Clone, Copy, Debug, PartialEq, Eq)]
pub enum SshVariant {
    /// OpenSSH, or a program with the same options.
    Ssh,
    /// A program without options.
    Simple,
    /// `plink` of PuTTY.
    Plink,
    /// `putty`, whose options are those of `plink`.
    Putty,
    /// `tortoiseplink`, which also gets the option to open no window.
    TortoisePlink,
}

/// The requested version of Git's protocol: the values of `protocol.version` in git-config(1).
///
/// With OpenSSH, a version above 0 adds the words `-o SendEnv=GIT_PROTOCOL`, and the value of that variable
/// ([`SshCommand::git_protocol`]). Git pushes by version 0 if version 2 is requested; it decides that by the
/// program that the server runs, and so requests version 2 unless that is exactly `git-receive-pack`.
///
/// ```
/// /// The version that Git asks for where `protocol.version` isn't set.
/// fn usual_version() -> ProtocolVersion {
///     ProtocolVersion::V2
/// }
/// ```
#[derive(Clone, Copy, Debug, PartialEq, Eq)]
pub enum ProtocolVersion {
    /// The original protocol; no version is sent to the server.
    V0,
    /// The original protocol, with a line in which the server reports its version.
    V1,
    /// The version that Git requests if `protocol.version` isn't set.
    V2,
}

/// The reason why a location has no Secure Shell command. If several apply, the first of these is returned.
///
/// ```
/// /// Whether somebody tries to pass an option off as a part of a location.
/// fn is_attack(refusal: SshRefusal) -> bool {
///     matches!(
///         refusal,
///         SshRefusal::OptionLikeUser | SshRefusal::OptionLikeHost | SshRefusal::OptionLikePath
///     )
/// }
/// ```
#[derive(Clone, Copy, Debug, PartialEq, Eq, Error)]
pub enum SshRefusal {
    /// The location doesn't use Secure Shell.
    #[error("the location isn't reached by Secure Shell")]
    NotSecureShell,
    /// The location has a password, for which Secure Shell has no argument. Git takes it for a part of the user.
    #[error("Secure Shell takes no password")]
    Password,
    /// The user is empty. OpenSSH refuses a destination that begins with `@`.
    #[error("the user is empty")]
    EmptyUser,
    /// The user, the host or the path contains a byte 0, which no program argument can contain. In each part it
    /// takes precedence over a `-`, an `@` or `ssh://`.
    #[error("an argument can't hold byte 0")]
    ByteZero,
    /// The user begins with `-`, so the destination would be taken for an option.
    #[error("the user looks like an option")]
    OptionLikeUser,
    /// The location has no host, or an empty one.
    #[error("the location has no host")]
    NoHost,
    /// The host begins with `-`. Git refuses it if there is no user.
    #[error("the host looks like an option")]
    OptionLikeHost,
    /// The host contains an `@`, at which Secure Shell would split it.
    #[error("the host holds an `@`")]
    AtSignInHost,
    /// The destination begins with `ssh://`, so OpenSSH would read it as a URL.
    #[error("the user or the host looks like a URL")]
    UrlLikeDestination,
    /// The path is empty.
    #[error("the location has no path")]
    NoPath,
    /// The path begins with `-`, so the server's program would take it for an option.
    #[error("the path looks like an option")]
    OptionLikePath,
    /// The program that replaces the service's is empty, so the server would run the path. Git does that.
    #[error("the program is empty")]
    EmptyProgram,
    /// The program contains a byte 0, which no argument can contain.
    #[error("the program holds byte 0")]
    ByteZeroInProgram,
    /// The program begins with `-`. OpenSSH also reads options after the destination, so it would be taken for an
    /// option. Git doesn't refuse it.
    #[error("the program looks like an option")]
    OptionLikeProgram,
    /// An address family is requested, for which the variant `simple` has no option.
    #[error("the variant `simple` of Secure Shell has no option for a family of addresses")]
    FamilyOfSimple,
    /// The location has a port, for which the variant `simple` has no option.
    #[error("the variant `simple` of Secure Shell has no option for a port")]
    PortOfSimple,
}

/// An error of [`ssh_words`]: memory, or the reason why there is no command.
///
/// ```
/// /// Whether the same call can succeed later: nothing is wrong with the location.
/// fn is_passing(error: SshError) -> bool {
///     error == SshError::Memory
/// }
/// ```
#[derive(Clone, Copy, Debug, PartialEq, Eq, Error)]
pub enum SshError {
    /// An allocation failed. This says nothing about the location.
    #[error("out of memory")]
    Memory,
    /// The location has no command.
    #[error("{0}")]
    Refused(SshRefusal),
}

impl From<AllocError> for SshError {
    ghost use Rattle.git_rules.specs.declared.ssh.SshError.TheVariants.{Memory};

    ghost from_gives = { λ _ e. e ≡ Memory };

    fn from(_: AllocError) -> SshError {
        SshError::Memory
    }
}

impl Service {
    /// The name of the program that the server runs.
    ///
    /// ```
    /// fn is_reading(service: Service) -> bool {
    ///     service.as_str() != "git-receive-pack"
    /// }
    /// ```
    pub fn as_str(self) -> &'static str
        ensures { result.now ≡ spec.service_name self }
    {
        match self {
            Service::UploadPack => "git-upload-pack",
            Service::ReceivePack => "git-receive-pack",
            Service::UploadArchive => "git-upload-archive",
        }
    }
}

/// Returns the words with which Git runs Secure Shell for a location, without the name of the program:
/// [`SshCommand::to_words`] of [`ssh_command`]. Allocates the list and each word, and nothing if there is no
/// command.
///
/// ```
/// /// The words with which Git fetches by OpenSSH, if it reads the same place in the location's text.
/// fn fetch_words(alloc: Global, url: &UrlRef<'_>) -> Result<Option<Vec<BString>>, SshError> {
///     if !agrees_with_git(url) {
///         return Ok(None); // of `ssh://github.com/@[evil.com]/a`, for which Git connects to `evil.com`
///     }
///     let (service, variant) = (Service::UploadPack, SshVariant::Ssh);
///     Ok(Some(ssh_words(alloc, url, service, variant, ProtocolVersion::V2)?))
/// }
/// ```
///
/// # Errors
///
/// [`SshError::Refused`] exactly if [`ssh_command`] refuses the location, for the same reason, even if memory is
/// short. [`SshError::Memory`] if an allocation fails.
pub fn ssh_words(
    alloc: Global,
    url: &UrlRef<'_>,
    service: Service,
    variant: SshVariant,
    version: ProtocolVersion,
) -> Result<Vec<BString>, SshError>
    ensures words { IfOk result (λ words. spec.AreWordsFor url.now
        (spec.service_alone service variant version) (map bstring_bytes words.items)) }
    ensures refused { IfErr result
        (λ e. answer.IsNotBuilt (spec.service_alone service variant version) url.now e) }
{
    match ssh_command(url, service, variant, version) {
        Ok(command) => Ok(command.to_words(alloc)?),
        Err(refusal) => Err(SshError::Refused(refusal)),
    }
}

/// Returns the command with which Git runs Secure Shell for a location and a service: [`ssh_command_for`] with the
/// service's own program and any address family.
///
/// ```
/// /// The port that is connected to, and whether a user is named.
/// fn reached(url: &UrlRef<'_>) -> Result<(Option<u16>, bool), SshRefusal> {
///     let command = ssh_command(url, Service::UploadPack, SshVariant::Ssh, ProtocolVersion::V2)?;
///     Ok((command.port, command.user.is_some()))
/// }
/// ```
///
/// # Errors
///
/// An [`SshRefusal`] exactly if the definition `ssh_refusal` has a reason to refuse: the first such reason.
pub fn ssh_command<'a>(
    url: &UrlRef<'a>,
    service: Service,
    variant: SshVariant,
    version: ProtocolVersion,
) -> Result<SshCommand<'a>, SshRefusal>
    ensures refused { IfErr result
        (λ e. spec.ssh_refusal (spec.service_alone service variant version) url.now ≡ Some e) }
    ensures built { OnOk result
        (spec.ssh_refusal (spec.service_alone service variant version) url.now ≡ None) }
    ensures own { IfOk result (λ c. spec.IsOwn url.now c) }
    ensures asked { IfOk result (λ c. c.request ≡ spec.service_alone service variant version) }
    ensures safe { IfOk result (λ c. spec.IsSafeCommand c) }
{
    let request = SshRequest {
        service,
        program: None,
        variant,
        version,
        family: AddressFamily::Any,
    };
    ssh_command_for(url, &request)
}

/// Returns the command with which Git runs Secure Shell for a location and a request. The command borrows
/// from the location and from the request's program.
///
/// User, host, port and path are the location's own: no default user or port is added, the host has no brackets
/// around an address, port 0 is a port, and a path may contain any byte except 0. Only the options begin with `-`,
/// and OpenSSH reads the user and the host in the destination. In the remote command a POSIX shell reads two words,
/// the service and the path. If the request names a program, the remote command is its text unchanged, a space, and
/// the quoted path: the server's shell expands the program and runs the result. The effect of an `ssh`
/// configuration on the words, such as `%r` in `ProxyCommand`, is not covered.
///
/// The command is built from the parts of a location, not from a text. If [`UrlRef::agrees_with_git`] is true, the
/// words are those that Git passes to Secure Shell for the location's text, by Git's own rules ([`law_git_words`]).
/// For other locations Git may refuse the text, or read other parts in it. The rules are those of `connect.c` of
/// Git 2.39.5.
///
/// ```
/// /// How Git fetches by the program that a remote has for it (`remote.<name>.uploadpack`), by IPv4 alone.
/// fn fetched<'a>(
///     url: &UrlRef<'a>,
///     uploadpack: Option<&'a [u8]>,
/// ) -> Result<SshCommand<'a>, SshRefusal> {
///     let request = SshRequest {
///         service: Service::UploadPack,
///         program: uploadpack, // `/opt/up x` makes the remote command `/opt/up x '/p'`
///         variant: SshVariant::Ssh,
///         version: ProtocolVersion::V2,
///         family: AddressFamily::V4,
///     };
///     ssh_command_for(url, &request)
/// }
/// ```
///
/// # Errors
///
/// An [`SshRefusal`] exactly if the definition `ssh_refusal` has a reason to refuse: the first such reason.
/// Reasons in the location precede those in the program, and these an address family or a port for which the
/// variant `simple` has no option.
pub fn ssh_command_for<'a>(
    url: &UrlRef<'a>,
    request: &SshRequest<'a>,
) -> Result<SshCommand<'a>, SshRefusal>
    ensures refused { IfErr result (λ e. spec.ssh_refusal request.now url.now ≡ Some e) }
    ensures built { OnOk result (spec.ssh_refusal request.now url.now ≡ None) }
    ensures own { IfOk result (λ c. spec.IsOwn url.now c) }
    ensures asked { IfOk result (λ c. c.request ≡ request.now) }
    ensures safe { IfOk result (λ c. spec.IsSafeCommand c) }
{
    if !matches!(url.scheme, SchemeRef::Ssh) {
        return Err(SshRefusal::NotSecureShell);
    }
    if url.password.is_some() {
        return Err(SshRefusal::Password);
    }
    let host = check_destination(url.user, url.host)?;
    check_path(url.path)?;
    check_request(request, url.port)?;
    let command = SshCommand {
        variant: request.variant,
        version: request.version,
        service: request.service,
        program: request.program,
        family: request.family,
        user: url.user,
        host,
        port: url.port,
        path: url.path,
    };
    command.law_safe();
    Ok(command)
}

/// If Git reads the same place in the text of a Secure Shell location, there is a command for the location, and its
/// words are Git's own.
///
/// - `own`: if [`UrlRef::agrees_with_git`] is true for a Secure Shell location, [`ssh_command_for`] returns a
///   command, unless it refuses the program, or an address family or a port with the variant `simple`. The
///   destination, the port and the path of the command are those that Git passes to Secure Shell for the text of
///   the location.
pub fn law_git_words()
    ensures own { GivesOwnWords }
{
    law_git();
}
