//! The program that Git runs for Secure Shell: by a configuration and variables of the environment, or by default.
//!
//! `tests/programs/test_ssh_commands.py` compares the commands with those that Git runs.

ghost use Rattle.std.specs.Prelude.{◌≡◌, option_map};
ghost use Rattle.explain.specs.Versions as spec;

use git_rules::config::Entry;
use git_rules::protocols::Protocols;
use git_rules::ssh::program::{ProgramVariant, SshProgram, SshProgramError, SshSettings};
use git_rules::ssh::{ProtocolVersion, SshVariant};

/// The program that Git runs for Secure Shell.
#[derive(Clone, Copy)]
pub struct Client<'c> {
    /// The path or name of the program, or a command line.
    pub text: &'c [u8],
    /// Whether a shell runs the text.
    pub is_command_line: bool,
    /// The variant of the program.
    pub variant: ProgramVariant,
    /// The version of Git's protocol that Git requests.
    pub version: ProtocolVersion,
    /// Whether Git uses the transport.
    pub is_allowed: bool,
}

impl<'c> Client<'c> {
    /// The program that Git runs if nothing is set.
    pub fn usual() -> Client<'c> {
        Client {
            text: b"ssh",
            is_command_line: false,
            variant: ProgramVariant::Known(SshVariant::Ssh),
            version: ProtocolVersion::V2,
            is_allowed: true,
        }
    }

    /// The program that Git runs by these settings and rules for transports; or the position of the entry at which Git
    /// stops.
    pub fn of(settings: &SshSettings<'c>, protocols: &Protocols<'_>) -> Result<Client<'c>, usize> {
        let version = version_of(settings.entries)?;
        match SshProgram::of(settings) {
            Err(SshProgramError::NoValue { at }) => Err(at),
            Ok(program) => Ok(Client {
                text: program.text,
                is_command_line: program.is_command_line,
                variant: program.variant,
                version,
                is_allowed: protocols.permission("ssh").is_allowed(),
            }),
        }
    }
}

/// The version of the protocol that these entries set; or the position of the last of them, if Git doesn't know its
/// value.
fn version_of(entries: &[Entry<'_>]) -> Result<ProtocolVersion, usize>
    ensures { result ≡ spec.version_of entries.now }
{
    let Some(entry) = last_version(entries) else {
        return Ok(ProtocolVersion::V2);
    };
    match entry.value.and_then(version_named) {
        Some(version) => Ok(version),
        None => Err(entry.at),
    }
}

/// The last entry of `protocol.version`.
fn last_version<'b, 'e>(entries: &'b [Entry<'e>]) -> Option<&'b Entry<'e>>
    ensures { option_map (λ entry. entry.now) result ≡ spec.last_version entries.now }
{
    let mut found = None;
    for entry in entries {
        if is_version(entry) {
            found = Some(entry);
        }
    }
    found
}

/// Whether the key of the entry is `protocol.version`.
fn is_version(entry: &Entry<'_>) -> bool
    ensures { result ≡ spec.is_version entry.now }
{
    entry.sets("protocol", "version") && entry.subsection.is_none()
}

/// The version with this value.
fn version_named(value: &[u8]) -> Option<ProtocolVersion>
    ensures { result ≡ spec.version_named value.now }
{
    if value == b"0".as_slice() {
        Some(ProtocolVersion::V0)
    } else if value == b"1".as_slice() {
        Some(ProtocolVersion::V1)
    } else if value == b"2".as_slice() {
        Some(ProtocolVersion::V2)
    } else {
        None
    }
}
