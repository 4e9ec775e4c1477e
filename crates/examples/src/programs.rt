//! Examples of the program that Git runs for Secure Shell.

use git_rules::config::Entry;
use git_rules::ssh::program::{ProgramVariant, SshProgram, SshProgramError, SshSettings};
use git_rules::ssh::{
    AddressFamily, ProtocolVersion, Service, SshCommand, SshRefusal, SshRequest, SshVariant,
    ssh_command_for,
};
use gix_url::UrlRef;

/// How Git fetches by the program that a remote has for it (`remote.<name>.uploadpack`), by IPv4 alone.
fn fetched<'a>(
    url: &UrlRef<'a>,
    uploadpack: Option<&'a [u8]>,
) -> Result<SshCommand<'a>, SshRefusal> {
    let request = SshRequest {
        service: Service::UploadPack,
        program: uploadpack, // `/opt/up x` makes the remote command `/opt/up x '/p'`
        variant: SshVariant::Ssh,
        version: ProtocolVersion::V2,
        family: AddressFamily::V4,
    };
    ssh_command_for(url, &request)
}

/// What Git runs by a configuration alone.
fn configured<'a>(entries: &'a [Entry<'a>]) -> Result<SshProgram<'a>, SshProgramError> {
    SshProgram::of(&SshSettings {
        entries,
        git_ssh_command: None,
        git_ssh: None,
        git_ssh_variant: None,
    })
}

/// The variant, where Git needs to run nothing to know it.
fn known(program: &SshProgram<'_>) -> Option<SshVariant> {
    match program.variant {
        ProgramVariant::Known(variant) => Some(variant),
        ProgramVariant::Asked => None,
    }
}

/// The byte offset of the entry that Git stops at, in the text of the configuration.
fn place(error: SshProgramError) -> usize {
    let SshProgramError::NoValue { at } = error;
    at
}

/// Whether a shell starts the program.
fn is_started_by_a_shell(program: &SshProgram<'_>) -> bool {
    program.is_command_line // as `sh -c 'TEXT "$@"' TEXT WORD..`, where TEXT is the program's
}

/// Whether Git takes what it runs for OpenSSH, without asking it.
fn is_openssh(settings: &SshSettings<'_>) -> Result<bool, SshProgramError> {
    let program = SshProgram::of(settings)?; // of `GIT_SSH_COMMAND='"/opt/x y/ssh.exe" -v'` it is
    Ok(program.variant == ProgramVariant::Known(SshVariant::Ssh))
}

fn family_of(is_ipv6_alone: bool) -> AddressFamily {
    if is_ipv6_alone {
        AddressFamily::V6
    } else {
        AddressFamily::Any
    }
}

/// What `git fetch` asks for where nothing is configured.
fn usual_fetch() -> SshRequest<'static> {
    SshRequest {
        service: Service::UploadPack,
        program: None,
        variant: SshVariant::Ssh,
        version: ProtocolVersion::V2,
        family: AddressFamily::Any,
    }
}
