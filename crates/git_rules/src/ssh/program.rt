//! The program that Git runs for Secure Shell, and its variant as Git determines it.
//!
//! No function here reads the environment or runs a program. An error names the entry at which Git stops. One
//! definition covers the program, whether it is a command line, and its variant (`specs/SshPrograms.antt`).

ghost use Rattle.std.specs.Prelude.{◌≡◌, option_map};
ghost use Rattle.std.specs.Result.{result_map_both};
ghost use Rattle.git_rules.specs.SshPrograms as spec;

mod name;

use crate::config::Entry;
use crate::ssh::SshVariant;
use crate::word::is_word;
use name::{name_of_line, name_of_path};
use std::marker::Model;
use thiserror::Error;

/// The settings that determine which program Git runs for Secure Shell: a configuration, and three variables of the
/// environment.
///
/// The caller reads the variables and sets the fields to their values, which are borrowed.
///
/// ```
/// /// What Git runs by a configuration alone.
/// fn configured<'a>(entries: &'a [Entry<'a>]) -> Result<SshProgram<'a>, SshProgramError> {
///     SshProgram::of(&SshSettings {
///         entries,
///         git_ssh_command: None,
///         git_ssh: None,
///         git_ssh_variant: None,
///     })
/// }
/// ```
#[derive(Drop)]
pub struct SshSettings<'a> {
    /// The entries of the configuration, in their order. Entries of keys other than `core.sshCommand` and
    /// `ssh.variant` are ignored.
    pub entries: &'a [Entry<'a>],
    /// The value of `GIT_SSH_COMMAND`, or `None` if it isn't set. An empty value is a command line like any other.
    pub git_ssh_command: Option<&'a [u8]>,
    /// The value of `GIT_SSH`, or `None` if it isn't set.
    pub git_ssh: Option<&'a [u8]>,
    /// The value of `GIT_SSH_VARIANT`, or `None` if it isn't set.
    pub git_ssh_variant: Option<&'a [u8]>,
}

impl<'a> Model for SshSettings<'a> {
    ghost use Rattle.git_rules.specs.SshPrograms.{Settings};

    ghost Value = { Settings };

    ghost use Rattle.git_rules.specs.SshProgramView.{borrowed_settings};

    ghost view = { borrowed_settings };
}

/// The variant of a Secure Shell program, as Git determines it.
///
/// ```
/// /// The variant, where Git needs to run nothing to know it.
/// fn known(program: &SshProgram<'_>) -> Option<SshVariant> {
///     match program.variant {
///         ProgramVariant::Known(variant) => Some(variant),
///         ProgramVariant::Asked => None,
///     }
/// }
/// ```
#[derive(Clone, Copy, Debug, PartialEq, Eq)]
pub enum ProgramVariant {
    /// This variant, by the configuration or by the name of the program.
    Known(SshVariant),
    /// Git runs the program with `-G`, the options that OpenSSH has and the destination, but no command. If it
    /// exits with status 0, Git takes it for [`SshVariant::Ssh`], otherwise for [`SshVariant::Simple`].
    Asked,
}

/// The reason why Git runs no program for Secure Shell.
///
/// ```
/// /// The byte offset of the entry that Git stops at, in the text of the configuration.
/// fn place(error: SshProgramError) -> usize {
///     let SshProgramError::NoValue { at } = error;
///     at
/// }
/// ```
#[derive(Clone, Copy, Debug, Drop, PartialEq, Eq, Error)]
pub enum SshProgramError {
    /// The entry that decides, of `core.sshCommand` or of `ssh.variant`, has no value.
    #[error("the setting at byte {at} has no value")]
    NoValue {
        /// The byte offset of the entry in the text of the configuration.
        at: usize,
    },
}

/// The program that Git runs for Secure Shell. It borrows its text from the settings.
///
/// ```
/// /// Whether a shell starts the program.
/// fn is_started_by_a_shell(program: &SshProgram<'_>) -> bool {
///     program.is_command_line // as `sh -c 'TEXT "$@"' TEXT WORD..`, where TEXT is the program's
/// }
/// ```
#[derive(Drop)]
pub struct SshProgram<'a> {
    /// The program: a command line, or the path or the name of one program. If it is empty, Git fails to start it.
    pub text: &'a [u8],
    /// Whether the text is a command line, of `GIT_SSH_COMMAND` or `core.sshCommand`: a shell runs it, with the
    /// words appended. Git starts it without a shell if it has no byte that is special to a shell.
    pub is_command_line: bool,
    /// Its variant, as Git determines it.
    pub variant: ProgramVariant,
}

impl<'a> Model for SshProgram<'a> {
    ghost use Rattle.git_rules.specs.SshPrograms.{Program};

    ghost Value = { Program };

    ghost use Rattle.git_rules.specs.SshProgramView.{borrowed_program};

    ghost view = { borrowed_program };
}

impl<'a> SshProgram<'a> {
    /// Returns the program that Git runs by these settings, as in `connect.c` of Git 2.39.5.
    ///
    /// - The program is `GIT_SSH_COMMAND`, or else the last `core.sshCommand`, or else `GIT_SSH`, or else `ssh`.
    ///   The first two are command lines.
    /// - The variant is `GIT_SSH_VARIANT`, or else the last `ssh.variant`: `plink`, `putty`, `tortoiseplink` or
    ///   `simple`, case-sensitive. `auto` counts as not set, and any other text is `ssh`.
    /// - If neither is set, the last name of the program determines the variant, ignoring letter case (ASCII):
    ///   `ssh`, `plink` or `tortoiseplink`, or one of these followed by `.exe`. Slashes at the end of a path are
    ///   ignored. The program of a command line is its first word, without its quotes and backslashes
    ///   (`split_cmdline` in `alias.c`): it is empty if the line begins with white space.
    /// - Git runs a program of any other name to detect its variant, and also one of a command line that has an
    ///   unclosed quote or ends in a backslash.
    ///
    /// # Errors
    ///
    /// [`SshProgramError::NoValue`] if Git stops at an entry without a value: at the last `core.sshCommand`
    /// if `GIT_SSH_COMMAND` isn't set, or else at the last `ssh.variant` if `GIT_SSH_VARIANT` isn't set.
    ///
    /// ```
    /// /// Whether Git takes what it runs for OpenSSH, without asking it.
    /// fn is_openssh(settings: &SshSettings<'_>) -> Result<bool, SshProgramError> {
    ///     let program = SshProgram::of(settings)?; // of `GIT_SSH_COMMAND='"/opt/x y/ssh.exe" -v'` it is
    ///     Ok(program.variant == ProgramVariant::Known(SshVariant::Ssh))
    /// }
    /// ```
    pub fn of(settings: &SshSettings<'a>) -> Result<SshProgram<'a>, SshProgramError>
        ensures { result ≡ spec.program_of settings.now }
    {
        let line = value_by(
            settings.git_ssh_command,
            settings.entries,
            "core",
            "sshcommand",
        )?;
        let name = value_by(settings.git_ssh_variant, settings.entries, "ssh", "variant")?;
        let is_command_line = line.is_some();
        let text = line.or(settings.git_ssh).unwrap_or(b"ssh");
        Ok(SshProgram {
            text,
            is_command_line,
            variant: variant_by(name, is_command_line, text),
        })
    }
}

/// The value of a variable, or if it isn't set that of the last entry of the key.
fn value_by<'a>(
    variable: Option<&'a [u8]>,
    entries: &'a [Entry<'a>],
    section: &str,
    name: &str,
) -> Result<Option<&'a [u8]>, SshProgramError>
    ensures { result_map_both (option_map (λ t. t.now)) (λ e. e) result
        ≡ spec.value_by (option_map (λ t. t.now) variable.entry) section.now name.now entries.now }
{
    if let Some(value) = variable {
        return Ok(Some(value));
    }
    match last_setting(entries, section, name) {
        None => Ok(None),
        Some(entry) => match entry.value {
            None => Err(SshProgramError::NoValue { at: entry.at }),
            Some(value) => Ok(Some(value)),
        },
    }
}

/// The last entry of a key.
fn last_setting<'a>(entries: &'a [Entry<'a>], section: &str, name: &str) -> Option<&'a Entry<'a>>
    ensures { option_map (λ e. e.now) result ≡ spec.last_setting section.now name.now entries.now }
{
    let mut found = None;
    for entry in entries {
        if is_setting(entry, section, name) {
            found = Some(entry);
        }
    }
    found
}

/// Whether the key of the entry is `section.name`, without a subsection.
fn is_setting(entry: &Entry<'_>, section: &str, name: &str) -> bool
    ensures { result ≡ spec.is_setting section.now name.now entry.now }
{
    entry.sets(section, name) && entry.subsection.is_none()
}

/// The variant of a program, by the configured name of a variant or else by the program's name.
fn variant_by(name: Option<&[u8]>, is_line: bool, text: &[u8]) -> ProgramVariant
    ensures { result ≡ spec.variant_by (option_map (λ t. t.now) name.entry) is_line text.now }
{
    match name.and_then(variant_of) {
        Some(variant) => ProgramVariant::Known(variant),
        None => variant_by_name(is_line, text),
    }
}

/// The variant of this name, or `None` for `auto`.
fn variant_of(name: &[u8]) -> Option<SshVariant>
    ensures { result ≡ spec.variant_of name.now }
{
    if name == b"auto".as_slice() {
        None
    } else if name == b"plink".as_slice() {
        Some(SshVariant::Plink)
    } else if name == b"putty".as_slice() {
        Some(SshVariant::Putty)
    } else if name == b"tortoiseplink".as_slice() {
        Some(SshVariant::TortoisePlink)
    } else if name == b"simple".as_slice() {
        Some(SshVariant::Simple)
    } else {
        Some(SshVariant::Ssh)
    }
}

/// The variant of a program, by its last name.
fn variant_by_name(is_line: bool, text: &[u8]) -> ProgramVariant
    ensures { result ≡ spec.variant_by_name is_line text.now }
{
    if !is_line {
        let name = name_of_path(text);
        return variant_named(name.as_bytes());
    }
    match name_of_line(text) {
        None => ProgramVariant::Asked,
        Some(name) => variant_named(name.as_bytes()),
    }
}

/// The variant of a program of this name.
fn variant_named(name: &[u8]) -> ProgramVariant
    ensures { result ≡ spec.variant_named name.now }
{
    if is_word(name, "ssh") || is_word(name, "ssh.exe") {
        ProgramVariant::Known(SshVariant::Ssh)
    } else if is_word(name, "plink") || is_word(name, "plink.exe") {
        ProgramVariant::Known(SshVariant::Plink)
    } else if is_word(name, "tortoiseplink") || is_word(name, "tortoiseplink.exe") {
        ProgramVariant::Known(SshVariant::TortoisePlink)
    } else {
        ProgramVariant::Asked
    }
}
