//! A Secure Shell command as its parts, and its words.

ghost use Rattle.std.specs.Prelude.{◌≡◌, ◌<◌, IfOk, IfSome, map, option_map};
ghost use Rattle.bstr.specs.Owned.{bstring_bytes};
ghost use Rattle.git_rules.specs.SecureShell as spec;

use crate::ssh::words::{destination, push, push_client, push_port, remote_command};
use crate::ssh::{AddressFamily, ProtocolVersion, Service, SshVariant};
use bstr::BString;
use std::alloc::{AllocError, Global};
use std::marker::Model;

/// The greatest number of words that a command has.
const MOST_WORDS: usize = 7;

/// A Secure Shell command as its parts: the program, the request, and the parts of the location, which it borrows.
///
/// [`ssh_command_for`](super::ssh_command_for) returns one. A program that builds one from its fields has to prove
/// that [`ssh_command_for`](super::ssh_command_for) would accept them: in contracts every command is safe
/// (`IsSafeCommand`).
///
/// ```
/// /// Whether the command says who logs in.
/// fn names_a_user(command: &SshCommand<'_>) -> bool {
///     command.user.is_some()
/// }
/// ```
#[derive(Drop)]
pub struct SshCommand<'a> {
    /// The variant of the program that is run.
    pub variant: SshVariant,
    /// The requested version of Git's protocol.
    pub version: ProtocolVersion,
    /// The service that the server runs.
    pub service: Service,
    /// The program that the server runs instead of the service's.
    pub program: Option<&'a [u8]>,
    /// The address family for the connection.
    pub family: AddressFamily,
    /// The user, before the `@` of the destination.
    pub user: Option<&'a str>,
    /// The host. An address has no brackets.
    pub host: &'a str,
    /// The port.
    pub port: Option<u16>,
    /// The path, without quotes.
    pub path: &'a [u8],
}

impl<'a> Model for SshCommand<'a> {
    ghost use Rattle.git_rules.specs.SecureShell.{Command, IsSafe};

    ghost Value = { Command };

    ghost use Rattle.git_rules.specs.SshCommand.{borrowed_command};

    ghost view = { borrowed_command };

    ghost invariant = { λ c. IsSafe (borrowed_command c) };
}

impl SshCommand<'_> {
    /// The value that Git sets for the variable `GIT_PROTOCOL` in the environment of the program, or `None` if it
    /// doesn't set it. The word `SendEnv=GIT_PROTOCOL` is present exactly if there is a value.
    ///
    /// ```
    /// fn asks_for_version_2(command: &SshCommand<'_>) -> bool {
    ///     command.git_protocol() == Some("version=2")
    /// }
    /// ```
    pub fn git_protocol(&self) -> Option<&'static str>
        ensures { option_map (λ t. t.now) result ≡ spec.command_variable self.now }
    {
        if !sends_version(self.variant, self.run_there(), self.version) {
            return None;
        }
        match self.version {
            ProtocolVersion::V0 => Some("version=0"),
            ProtocolVersion::V1 => Some("version=1"),
            ProtocolVersion::V2 => Some("version=2"),
        }
    }

    /// Returns the words after the name of the program. Allocates the list, which has 2 to 7 words, and each word.
    ///
    /// The options come first: `-o` and `SendEnv=GIT_PROTOCOL` if a version is sent, `-4` or `-6` for an address
    /// family, `-batch` for `tortoiseplink`, and for a port its digits after `-p` with OpenSSH and after `-P` with
    /// the others. Then comes the destination, `user@host` or the host, and last the command for the server's
    /// shell: the service or the program that replaces it, a space, and the path in single quotes, in which `'` and
    /// `!` are written `'\''` and `'\!'`. Each word is one argument of the program; no local shell reads it.
    ///
    /// ```
    /// fn last_word(alloc: Global, command: &SshCommand<'_>) -> Result<Option<BString>, AllocError> {
    ///     let mut words = command.to_words(alloc)?;
    ///     Ok(words.pop()) // `git-upload-pack '/a b'`
    /// }
    /// ```
    ///
    /// # Errors
    ///
    /// Returns [`AllocError`] if an allocation fails, or if the length of a word overflows.
    pub fn to_words(&self, alloc: Global) -> Result<Vec<BString>, AllocError>
        ensures words { IfOk result (λ words. map bstring_bytes words.items ≡ spec.command_words self.now) }
        ensures safe { spec.IsSafeCommand self.now }
    {
        self.law_safe();
        let mut words = Vec::with_capacity(alloc, MOST_WORDS)?;
        if sends_version(self.variant, self.run_there(), self.version) {
            push(alloc, &mut words, b"-o")?;
            push(alloc, &mut words, b"SendEnv=GIT_PROTOCOL")?;
        }
        push_client(alloc, &mut words, self.variant, self.family)?;
        push_port(alloc, &mut words, self.variant, self.port)?;
        words.push(destination(alloc, self.user, self.host)?)?;
        words.push(remote_command(alloc, self.run_there(), self.path)?)?;
        Ok(words)
    }

    /// The program that the server runs: the one that is set, or the service's own.
    fn run_there(&self) -> &[u8]
        ensures { result.now ≡ spec.program_text self.now.request }
    {
        match self.program {
            None => self.service.as_str().as_bytes(),
            Some(program) => program,
        }
    }

    /// Every command is safe: an unsafe one can't be built.
    pub(super) fn law_safe(&self)
        ensures { spec.IsSafeCommand self.now }
    {
        law_port(self.port);
    }
}

/// Whether the version of the protocol is sent to the server, by the program that it runs.
fn sends_version(variant: SshVariant, program: &[u8], version: ProtocolVersion) -> bool
    ensures { result ≡ spec.sends_version variant program.now version }
{
    match (variant, version) {
        (SshVariant::Ssh, ProtocolVersion::V1) => true,
        (SshVariant::Ssh, ProtocolVersion::V2) => program != b"git-receive-pack".as_slice(),
        _ => false,
    }
}

/// A port is below 65,536.
fn law_port(port: Option<u16>)
    ensures { IfSome port (λ port. port < 65536) }
{
    match port {
        None => {}
        Some(_) => {}
    }
}
