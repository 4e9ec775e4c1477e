//! Reads the configuration: the file that `--config` names, or standard input, and five variables.
//!
//! `tests/programs/test_explain_rules.py` tests which files are read and which are refused.

use git_rules::config::is_listing;
use std::alloc::AllocError;
use std::env::{self, VarError};
use std::io::{self, Read};
use std::{fmt, fs};

/// The configuration of a run, and the variables that Git reads.
#[derive(Drop)]
pub struct Source {
    /// The output of `git config --list -z`.
    pub text: Vec<u8>,
    /// `GIT_ALLOW_PROTOCOL`, if it is set.
    pub allow_list: Option<String>,
    /// `GIT_PROTOCOL_FROM_USER`, if it is set.
    pub from_user: Option<String>,
}

/// The variables by which Git chooses the program for Secure Shell, each if it is set.
#[derive(Drop)]
pub struct SshVariables {
    /// `GIT_SSH_COMMAND`.
    pub command: Option<String>,
    /// `GIT_SSH`.
    pub program: Option<String>,
    /// `GIT_SSH_VARIANT`.
    pub variant: Option<String>,
}

/// Why there is no configuration.
#[derive(Drop)]
pub enum SourceError {
    Memory,
    /// The file can't be read.
    Unread(io::Error),
    /// The text isn't output of `git config --list -z`, or not all of it.
    NoListing,
    /// A variable isn't UTF-8.
    NotUtf8(&'static str),
}

impl From<AllocError> for SourceError {
    fn from(_: AllocError) -> SourceError {
        SourceError::Memory
    }
}

impl fmt::Display for SourceError {
    fn fmt<W: fmt::Write>(&self, f: &mut fmt::Formatter<W>) -> fmt::Result {
        match self {
            SourceError::Memory => f.write_str("out of memory"),
            SourceError::Unread(error) => write!(f, "{error}"),
            SourceError::NoListing => f.write_str(
                "it isn't the whole output of git config --list -z",
            ),
            SourceError::NotUtf8(name) => write!(f, "{name} is not UTF-8"),
        }
    }
}

impl Source {
    /// The configuration in a file; `-` is standard input.
    pub fn read(rt: &HostRuntime, file: &str) -> Result<Source, SourceError> {
        let allow_list = variable(rt, "GIT_ALLOW_PROTOCOL")?;
        let from_user = variable(rt, "GIT_PROTOCOL_FROM_USER")?;
        let text = text_of(rt, file).map_err(SourceError::Unread)?;
        if !is_listing(text.as_slice()) {
            return Err(SourceError::NoListing);
        }
        Ok(Source {
            text,
            allow_list,
            from_user,
        })
    }
}

impl SshVariables {
    /// The variables of the environment.
    pub fn read(rt: &HostRuntime) -> Result<SshVariables, SourceError> {
        let command = variable(rt, "GIT_SSH_COMMAND")?;
        let program = variable(rt, "GIT_SSH")?;
        let variant = variable(rt, "GIT_SSH_VARIANT")?;
        Ok(SshVariables {
            command,
            program,
            variant,
        })
    }
}

/// The bytes of a file; `-` is standard input.
pub fn text_of(rt: &HostRuntime, file: &str) -> io::Result<Vec<u8>> {
    if file != "-" {
        return fs::read(rt, file);
    }
    let mut text = Vec::new(rt.alloc());
    rt.reader().read_to_end(&mut text)?;
    Ok(text)
}

/// The value of a variable of the environment, if it is set.
fn variable(rt: &HostRuntime, name: &'static str) -> Result<Option<String>, SourceError> {
    match env::var(rt, name) {
        Ok(value) => Ok(Some(value)),
        Err(VarError::NotPresent) => Ok(None),
        Err(VarError::NotUnicode) => Err(SourceError::NotUtf8(name)),
        Err(VarError::OutOfMemory) => Err(SourceError::Memory),
    }
}
