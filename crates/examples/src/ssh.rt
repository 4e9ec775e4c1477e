//! Commands of Secure Shell: the examples of the module `ssh` of `git_rules`.

use bstr::BString;
use git_rules::ssh::{
    ProtocolVersion, Service, SshCommand, SshError, SshRefusal, SshVariant, ssh_command, ssh_words,
};
use gix_url::{UrlRef, agrees_with_git};
use std::alloc::{AllocError, Global};

/// The service of a command.
fn service_of(is_push: bool) -> Service {
    if is_push {
        Service::ReceivePack
    } else {
        Service::UploadPack
    }
}

/// The variant that git-config(1) has for a value of `ssh.variant`; none for `auto`.
fn variant_of(value: &str) -> Option<SshVariant> {
    match value {
        "auto" => None,
        "simple" => Some(SshVariant::Simple),
        "plink" => Some(SshVariant::Plink),
        "putty" => Some(SshVariant::Putty),
        "tortoiseplink" => Some(SshVariant::TortoisePlink),
        _ => Some(SshVariant::Ssh),
    }
}

/// The version that Git asks for where `protocol.version` isn't set.
fn usual_version() -> ProtocolVersion {
    ProtocolVersion::V2
}

/// Whether somebody tries to pass an option off as a part of a location.
fn is_attack(refusal: SshRefusal) -> bool {
    matches!(
        refusal,
        SshRefusal::OptionLikeUser | SshRefusal::OptionLikeHost | SshRefusal::OptionLikePath
    )
}

/// Whether the same call can succeed later: nothing is wrong with the location.
fn is_passing(error: SshError) -> bool {
    error == SshError::Memory
}

fn is_reading(service: Service) -> bool {
    service.as_str() != "git-receive-pack"
}

/// Whether the command says who logs in.
fn names_a_user(command: &SshCommand<'_>) -> bool {
    command.user.is_some()
}

fn asks_for_version_2(command: &SshCommand<'_>) -> bool {
    command.git_protocol() == Some("version=2")
}

fn last_word(alloc: Global, command: &SshCommand<'_>) -> Result<Option<BString>, AllocError> {
    let mut words = command.to_words(alloc)?;
    Ok(words.pop()) // `git-upload-pack '/a b'`
}

/// The words with which Git fetches by OpenSSH, if it reads the same place in the location's text.
fn fetch_words(alloc: Global, url: &UrlRef<'_>) -> Result<Option<Vec<BString>>, SshError> {
    if !agrees_with_git(url) {
        return Ok(None); // of `ssh://github.com/@[evil.com]/a`, for which Git connects to `evil.com`
    }
    let (service, variant) = (Service::UploadPack, SshVariant::Ssh);
    Ok(Some(ssh_words(alloc, url, service, variant, ProtocolVersion::V2)?))
}

/// The port that is connected to, and whether a user is named.
fn reached(url: &UrlRef<'_>) -> Result<(Option<u16>, bool), SshRefusal> {
    let command = ssh_command(
        url,
        Service::UploadPack,
        SshVariant::Ssh,
        ProtocolVersion::V2,
    )?;
    Ok((command.port, command.user.is_some()))
}
