//! Calls of `git_rules` over the settings that determine the program for Secure Shell.
//!
//! `git_ssh_command`, `git_ssh` and `git_ssh_variant` are the values of the variables, if these are set.

use crate::halt::Halt;
use crate::order::{Order, unknown};
use crate::report::{Out, Report, report_borrowed, report_name};
use bstr::BStr;
use git_rules::config::Entry;
use git_rules::ssh::program::{ProgramVariant, SshProgram, SshProgramError, SshSettings};
use std::alloc::Global;
use std::io::{self, Write};

/// Calls over the entries of a configuration and the variables.
pub fn over_entries(
    alloc: Global,
    order: Order<'_>,
    entries: &[Entry<'_>],
    out: &mut Out,
) -> Result<(), Halt> {
    let command = order.some_bytes(alloc, "git_ssh_command")?;
    let path = order.some_bytes(alloc, "git_ssh")?;
    let variant = order.some_bytes(alloc, "git_ssh_variant")?;
    let outcome = over_settings(order, &*entries, &command, &path, &variant, out);
    drop(command);
    drop(path);
    drop(variant);
    outcome
}

/// Builds the settings, and makes a call over them.
fn over_settings<'a>(
    order: Order<'_>,
    entries: &'a [Entry<'a>],
    command: &'a Option<Vec<u8>>,
    path: &'a Option<Vec<u8>>,
    variant: &'a Option<Vec<u8>>,
    out: &mut Out,
) -> Result<(), Halt> {
    let settings = SshSettings {
        entries,
        git_ssh_command: bytes_of(command),
        git_ssh: bytes_of(path),
        git_ssh_variant: bytes_of(variant),
    };
    match order.call() {
        "SshProgram::of" => report_program(out, SshProgram::of(&settings)),
        call => unknown(call),
    }
}

/// The bytes of a variable, if it is set.
fn bytes_of(value: &Option<Vec<u8>>) -> Option<&[u8]> {
    value.as_ref().map(|bytes| bytes.as_slice())
}

/// Reports the parts of a program, or why there is none.
fn report_program(
    out: &mut Out,
    program: Result<SshProgram<'_>, SshProgramError>,
) -> Result<(), Halt> {
    match program {
        Err(error) => report_borrowed(out, &error),
        Ok(program) => {
            report_name(out, "{", "text")?;
            report_borrowed(out, &BStr::new(program.text))?;
            report_name(out, ",", "is_command_line")?;
            report_borrowed(out, &program.is_command_line)?;
            report_name(out, ",", "variant")?;
            report_borrowed(out, &program.variant)?;
            Ok(out.write_all(b"}")?)
        }
    }
}

impl Report for ProgramVariant {
    fn report(&self, out: &mut Out) -> io::Result<()> {
        match self {
            ProgramVariant::Known(variant) => write!(out, "\"{variant:?}\""),
            ProgramVariant::Asked => out.write_all(b"\"Asked\""),
        }
    }
}

impl Report for SshProgramError {
    fn report(&self, out: &mut Out) -> io::Result<()> {
        match self {
            SshProgramError::NoValue { at } => write!(out, "{{\"error\":\"NoValue\",\"at\":{at}}}"),
        }
    }
}
