//! The program that Git runs for Secure Shell. With 102 only the numbers are reported.

ghost use Rattle.std.specs.Prelude.{◌≡◌, ◌⊎◌};
ghost use Rattle.c_values.specs.Codes.{no_room, ok};
ghost use Rattle.c_values.specs.Left.{LeavesLengths, LeavesBuffer};
ghost use Rattle.c_values.specs.ProgramNumbers.{PutsProgram, ReportsProgram, settings_passed, variant_number};
ghost use Rattle.c_values.specs.Stops.{LeavesStop, no_stop};

use crate::buffer::put;
use crate::input::present;
use crate::rules::commands::known_variant_number;
use crate::rules::stops::{NO_VALUE, Stop, no_stop, stop_at};
use git_rules::config::Entry;
use git_rules::ssh::program::{ProgramVariant, SshProgram, SshProgramError, SshSettings};

/// Three environment variables, as `gix_url_c_ssh_program` takes them. The bytes of a variable that isn't
/// set are ignored.
#[repr(C)]
#[derive(Clone, Copy)]
pub struct GivenVariables<'a> {
    /// `GIT_SSH_COMMAND`.
    pub command: &'a [u8],
    /// `GIT_SSH`.
    pub path: &'a [u8],
    /// `GIT_SSH_VARIANT`.
    pub variant: &'a [u8],
    /// Whether `GIT_SSH_COMMAND` is set.
    pub has_command: bool,
    /// Whether `GIT_SSH` is set.
    pub has_path: bool,
    /// Whether `GIT_SSH_VARIANT` is set.
    pub has_variant: bool,
}

/// The report of `gix_url_c_ssh_program` about a program, apart from its text.
#[repr(C)]
#[derive(Clone, Copy)]
pub struct ProgramNumbers {
    /// Whether the text is a command line for a shell.
    pub is_command_line: bool,
    /// The variant: 0 OpenSSH, 1 `simple`, 2 `plink`, 3 `putty`, 4 `tortoiseplink`; 5 if Git runs the
    /// program to find out.
    pub variant: u8,
    /// The length of the text.
    pub len: usize,
}

/// Finds the program that Git runs, and copies its text.
pub fn find(
    entries: &[Entry<'_>],
    variables: &GivenVariables<'_>,
    built: &mut ProgramNumbers,
    buffer: &mut [u8],
    stop: &mut Stop,
) -> u32
    ensures reported { ReportsProgram (settings_passed entries.now variables.now)
        built.new buffer.old buffer.new stop.new result }
    ensures buffer { LeavesBuffer result buffer.old buffer.new }
    ensures numbers { LeavesLengths result built.old built.new }
    ensures stop { LeavesStop result stop.new }
{
    *stop = no_stop();
    let settings = SshSettings {
        entries,
        git_ssh_command: present(variables.has_command, variables.command),
        git_ssh: present(variables.has_path, variables.path),
        git_ssh_variant: present(variables.has_variant, variables.variant),
    };
    match SshProgram::of(&settings) {
        Ok(program) => write_program(&program, built, buffer),
        Err(SshProgramError::NoValue { at }) => stop_at(NO_VALUE, at, stop),
    }
}

/// Copies and reports the text of a program.
fn write_program(program: &SshProgram<'_>, built: &mut ProgramNumbers, buffer: &mut [u8]) -> u32
    ensures reported { PutsProgram program.now built.new buffer.old buffer.new result }
    ensures buffer { LeavesBuffer result buffer.old buffer.new }
    ensures numbers { LeavesLengths result built.old built.new }
    ensures code { (result ≡ ok) ⊎ (result ≡ no_room) }
{
    *built = ProgramNumbers {
        is_command_line: program.is_command_line,
        variant: variant_number(program.variant),
        len: program.text.len(),
    };
    put(program.text, buffer)
}

/// The number of a variant.
fn variant_number(variant: ProgramVariant) -> u8
    ensures { result ≡ variant_number variant }
{
    match variant {
        ProgramVariant::Known(variant) => known_variant_number(variant),
        ProgramVariant::Asked => 5,
    }
}
