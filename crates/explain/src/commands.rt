//! The command with which Git fetches from a location of Secure Shell, as a line for a POSIX shell; or why there is
//! none.
//!
//! The contract of `git_rules::ssh` specifies the words, and `client` finds the program.
//! `tests/programs/test_ssh_commands.py` compares the commands with those that Git runs.

ghost use Rattle.std.specs.Prelude.{◌≡◌};
ghost use Rattle.explain.specs.Commands as spec;

use crate::answer::Line;
use crate::client::Client;
use crate::shell_line::line_of;
use crate::style::{Layout, Style};
use bstr::BStr;
use explain_page::page::Page;
use explain_report::finding::Findings;
use explain_report::text::secret::has_secret;
use git_rules::ssh::program::ProgramVariant;
use git_rules::ssh::{Service, SshCommand, SshRefusal, SshVariant, ssh_command};
use gix_url::lines::RunError;
use gix_url::parse::parse;
use gix_url::{Error, UrlRef};
use std::alloc::{AllocError, Global};
use std::fmt;
use std::io::Write;

/// Why there is no command for a line.
#[derive(Clone, Copy)]
enum Lack {
    /// The line isn't a location.
    NoLocation,
    /// The location has none.
    Refused(SshRefusal),
    /// Git doesn't use Secure Shell.
    NotAllowed,
    /// Git has to run the program to find its variant.
    Asked,
    /// A part of the text or of the command may be a secret.
    Secret,
}

/// Why the call returns no command.
#[derive(Clone, Copy)]
enum NoCommand {
    Memory,
    Lack(Lack),
}

impl From<AllocError> for NoCommand {
    fn from(_: AllocError) -> NoCommand {
        NoCommand::Memory
    }
}

impl fmt::Display for Lack {
    fn fmt<W: fmt::Write>(&self, f: &mut fmt::Formatter<W>) -> fmt::Result {
        match self {
            Lack::NoLocation => f.write_str("it is not a location"),
            Lack::Refused(refusal) => write!(f, "{refusal}"),
            Lack::NotAllowed => f.write_str("Git doesn't use the transport ssh"),
            Lack::Asked => f.write_str(
                "Git runs the program with -G to find out which options it has, unless ssh.variant says it",
            ),
            Lack::Secret => f.write_str("the command may show a secret"),
        }
    }
}

/// Writes the command for a line. If there is none, writes an empty line, and the reason on standard error. Returns the
/// findings in the line, and whether a command is missing although the run doesn't fail for a finding.
pub fn answer_line<W: Write>(
    rt: &HostRuntime,
    line: Line<'_, '_>,
    output: &mut W,
) -> Result<(Findings, bool), RunError> {
    let found = found_in(rt.alloc(), line)?;
    match command_for(rt.alloc(), line) {
        Ok(command) => {
            let written = write(output, command.as_str());
            drop(command);
            written?;
            Ok((found, false))
        }
        Err(NoCommand::Memory) => Err(RunError::Memory),
        Err(NoCommand::Lack(lack)) => {
            report(rt, line.number, lack);
            write(output, "\n")?;
            Ok((found, is_missing(lack, found.meets(line.style.fail_on))))
        }
    }
}

/// Writes a text.
fn write<W: Write>(output: &mut W, text: &str) -> Result<(), RunError> {
    output.write_all(text.as_bytes()).map_err(RunError::Write)
}

/// Reports on standard error why there is no command for a line.
fn report(rt: &impl Eprint, number: u64, lack: Lack) {
    let _ = eprintln!(rt; "explain: line {number}: {lack}");
}

/// Whether the run has to end as if the line couldn't be read: the line isn't of Secure Shell, or the run doesn't fail
/// for its findings.
fn is_missing(lack: Lack, fails: bool) -> bool
    ensures { result ≡ spec.is_missing lack fails }
{
    match lack {
        Lack::NoLocation | Lack::Refused(SshRefusal::NotSecureShell) => true,
        _ => !fails,
    }
}

/// The findings in a line.
fn found_in(alloc: Global, line: Line<'_, '_>) -> Result<Findings, AllocError> {
    let quiet = Line {
        number: line.number,
        bytes: line.bytes,
        origin: line.origin,
        style: Style {
            layout: Layout::Quiet,
            colors: line.style.colors,
            end: line.style.end,
            config: line.style.config,
            client: line.style.client,
            fail_on: line.style.fail_on,
        },
    };
    let mut page = Page::new(alloc);
    let answered = quiet.answer(alloc, &mut page);
    drop(page);
    let (answer, found) = answered?;
    drop(answer);
    Ok(found)
}

/// The command for a line. The configuration rewrites the line, if one is given.
fn command_for(alloc: Global, line: Line<'_, '_>) -> Result<String, NoCommand> {
    let Some(config) = line.style.config else {
        return command_of(alloc, line.bytes, line.style.client);
    };
    let text = config.rewrites.rewrite_fetch(line.bytes).to_bstring(alloc)?;
    let command = command_of(alloc, text.as_bytes(), line.style.client);
    drop(text);
    command
}

/// The command for a text.
fn command_of(alloc: Global, text: &[u8], client: Client<'_>) -> Result<String, NoCommand> {
    match parse(alloc, BStr::new(text)) {
        Ok(url) => {
            let command = of_location(alloc, text, &url.as_ref(), client);
            drop(url);
            command
        }
        Err(Error::Memory) => Err(NoCommand::Memory),
        Err(error) => {
            drop(error);
            Err(NoCommand::Lack(Lack::NoLocation))
        }
    }
}

/// The command for the location that this text is parsed as.
fn of_location(
    alloc: Global,
    text: &[u8],
    url: &UrlRef<'_>,
    client: Client<'_>,
) -> Result<String, NoCommand> {
    let variant = variant_of(client);
    match ssh_command(url, Service::UploadPack, variant, client.version) {
        Err(refusal) => Err(NoCommand::Lack(Lack::Refused(refusal))),
        Ok(command) => of_command(alloc, text, command, client),
    }
}

/// The variant of the program; OpenSSH if Git has to run the program first.
fn variant_of(client: Client<'_>) -> SshVariant
    ensures { result ≡ spec.variant_or_openssh client.entry.variant }
{
    match client.variant {
        ProgramVariant::Known(variant) => variant,
        ProgramVariant::Asked => SshVariant::Ssh,
    }
}

/// The line of a command for a text, unless Git runs none, or has to run another program first, or a part of the
/// command may be a secret.
fn of_command(
    alloc: Global,
    text: &[u8],
    command: SshCommand<'_>,
    client: Client<'_>,
) -> Result<String, NoCommand> {
    if !client.is_allowed {
        return Err(NoCommand::Lack(Lack::NotAllowed));
    }
    if let ProgramVariant::Asked = client.variant {
        return Err(NoCommand::Lack(Lack::Asked));
    }
    if has_secret(text) || has_secret(client.text) {
        drop(command);
        return Err(NoCommand::Lack(Lack::Secret));
    }
    let line = line_with_words(alloc, &command, client);
    drop(command);
    Ok(line?)
}

/// The line of a command.
fn line_with_words(
    alloc: Global,
    command: &SshCommand<'_>,
    client: Client<'_>,
) -> Result<String, AllocError> {
    let words = command.to_words(alloc)?;
    let line = line_of(alloc, client, command.git_protocol(), words.as_slice());
    drop(words);
    line
}
