//! Checks of the parts of a location and of a request: the user, the host, the path, the program, the address
//! family and the port.

ghost use Rattle.std.specs.Prelude.{◌≡◌, IfErr, IfOk, None, Some, option_map};
ghost use Rattle.std.specs.Result.{result_err};
ghost use Rattle.git_rules.specs.SecureShell as spec;

use crate::ssh::{AddressFamily, SshRefusal, SshRequest, SshVariant};
use git_syntax::bytes::{is_free_of, starts_with_byte};

/// Returns the host, if the user and the host form a destination.
pub(super) fn check_destination<'a>(
    user: Option<&str>,
    host: Option<&'a str>,
) -> Result<&'a str, SshRefusal>
    ensures found { IfOk result (λ h. (option_map (λ t. t.now) host.entry ≡ Some h.now)
        × (spec.destination_refusal (option_map (λ t. t.now) user.entry) (Some h.now) ≡ None)) }
    ensures refused { IfErr result (λ e. spec.destination_refusal (option_map (λ t. t.now) user.entry)
        (option_map (λ t. t.now) host.entry) ≡ Some e) }
{
    check_user(user)?;
    let host = check_host(host)?;
    check_url(user, host)?;
    Ok(host)
}

/// Refuses a user that can't be part of a destination.
fn check_user(user: Option<&str>) -> Result<(), SshRefusal>
    ensures { result_err result ≡ spec.user_refusal (option_map (λ t. t.now) user.entry) }
{
    match user {
        None => Ok(()),
        Some(user) => check_user_text(user.as_bytes()),
    }
}

/// Refuses the text of a user that can't be part of a destination.
fn check_user_text(user: &[u8]) -> Result<(), SshRefusal>
    ensures { result_err result ≡ spec.user_refusal (Some user.now) }
{
    if user.is_empty() {
        Err(SshRefusal::EmptyUser)
    } else if !is_free_of(user, 0) {
        Err(SshRefusal::ByteZero)
    } else if starts_with_byte(user, b'-') {
        Err(SshRefusal::OptionLikeUser)
    } else {
        Ok(())
    }
}

/// Returns the host, if it can be part of a destination.
fn check_host<'a>(host: Option<&'a str>) -> Result<&'a str, SshRefusal>
    ensures found { IfOk result (λ h. (option_map (λ t. t.now) host.entry ≡ Some h.now)
        × (spec.host_refusal (Some h.now) ≡ None)) }
    ensures refused { IfErr result (λ e. spec.host_refusal (option_map (λ t. t.now) host.entry) ≡ Some e) }
{
    match host {
        None => Err(SshRefusal::NoHost),
        Some(host) => {
            check_host_text(host.as_bytes())?;
            Ok(host)
        }
    }
}

/// Refuses the text of a host that can't be part of a destination.
fn check_host_text(host: &[u8]) -> Result<(), SshRefusal>
    ensures { result_err result ≡ spec.host_refusal (Some host.now) }
{
    if host.is_empty() {
        Err(SshRefusal::NoHost)
    } else if !is_free_of(host, 0) {
        Err(SshRefusal::ByteZero)
    } else if starts_with_byte(host, b'-') {
        Err(SshRefusal::OptionLikeHost)
    } else if !is_free_of(host, b'@') {
        Err(SshRefusal::AtSignInHost)
    } else {
        Ok(())
    }
}

/// Refuses a user and a host that OpenSSH would read as a URL.
fn check_url(user: Option<&str>, host: &str) -> Result<(), SshRefusal>
    ensures { result_err result ≡ spec.url_refusal (option_map (λ t. t.now) user.entry) (Some host.now) }
{
    match user {
        None => check_front(host.as_bytes()),
        Some(user) => check_front(user.as_bytes()),
    }
}

/// Refuses a text that OpenSSH would read as a URL.
fn check_front(front: &[u8]) -> Result<(), SshRefusal>
    ensures { result_err result ≡ spec.url_refusal (Some front.now) None }
{
    if front.starts_with(b"ssh://") {
        Err(SshRefusal::UrlLikeDestination)
    } else {
        Ok(())
    }
}

/// Refuses a path that can't be part of a remote command.
pub(super) fn check_path(path: &[u8]) -> Result<(), SshRefusal>
    ensures { result_err result ≡ spec.path_refusal path.now }
{
    if path.is_empty() {
        Err(SshRefusal::NoPath)
    } else if !is_free_of(path, 0) {
        Err(SshRefusal::ByteZero)
    } else if starts_with_byte(path, b'-') {
        Err(SshRefusal::OptionLikePath)
    } else {
        Ok(())
    }
}

/// Refuses a request that has no command with this port.
pub(super) fn check_request(request: &SshRequest<'_>, port: Option<u16>) -> Result<(), SshRefusal>
    ensures { result_err result ≡ spec.request_refusal request.now port }
{
    check_program(request.program)?;
    match (request.variant, request.family) {
        (SshVariant::Simple, AddressFamily::V4 | AddressFamily::V6) => Err(
            SshRefusal::FamilyOfSimple,
        ),
        _ => check_port(request.variant, port),
    }
}

/// Refuses a program that can't be part of a remote command.
fn check_program(program: Option<&[u8]>) -> Result<(), SshRefusal>
    ensures { result_err result ≡ spec.program_refusal (option_map (λ t. t.now) program.entry) }
{
    let Some(program) = program else {
        return Ok(());
    };
    if program.is_empty() {
        Err(SshRefusal::EmptyProgram)
    } else if !is_free_of(program, 0) {
        Err(SshRefusal::ByteZeroInProgram)
    } else if starts_with_byte(program, b'-') {
        Err(SshRefusal::OptionLikeProgram)
    } else {
        Ok(())
    }
}

/// Refuses a port for which the variant has no option.
fn check_port(variant: SshVariant, port: Option<u16>) -> Result<(), SshRefusal>
    ensures { result_err result ≡ spec.port_refusal variant port }
{
    match (variant, port) {
        (SshVariant::Simple, Some(_)) => Err(SshRefusal::PortOfSimple),
        _ => Ok(()),
    }
}
