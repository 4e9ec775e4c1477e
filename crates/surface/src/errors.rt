//! The errors of locations.

use bstr::BString;
use gix_url::expand_path::ForUser;
use gix_url::parse::UrlKind;
use gix_url::{Error, UrlFault, WriteError, WriteFault};
use std::io;

/// An error, destructured and rebuilt.
pub fn same_error(error: Error) -> Error {
    match error {
        Error::Memory => Error::Memory,
        Error::EmptyLocal => Error::EmptyLocal,
        Error::MissingPath { kind, input } => missing_path(kind, input),
        Error::NotUtf8 { kind, input } => not_utf8(kind, input),
        Error::TooLong { shown, total } => too_long(shown, total),
        Error::BadUrl { kind, fault, input } => bad_url(kind, fault, input),
        Error::HelperName { name } => helper_name(name),
        Error::Unwritable(fault) => unwritable(fault),
        Error::NoHome(user) => no_home(user),
        Error::PathNotUtf8 => Error::PathNotUtf8,
        Error::Unresolved => Error::Unresolved,
    }
}

/// The error of a text without a path.
pub fn missing_path(kind: UrlKind, input: BString) -> Error {
    Error::MissingPath { kind, input }
}

/// The error of a text that is not UTF-8.
pub fn not_utf8(kind: UrlKind, input: BString) -> Error {
    Error::NotUtf8 { kind, input }
}

/// The error of a text that is too long.
pub fn too_long(shown: BString, total: usize) -> Error {
    Error::TooLong { shown, total }
}

/// The error of a text with a fault.
pub fn bad_url(kind: UrlKind, fault: UrlFault, input: BString) -> Error {
    Error::BadUrl { kind, fault, input }
}

/// The error of an invalid helper's name.
pub fn helper_name(name: BString) -> Error {
    Error::HelperName { name }
}

/// The error of a location without a text.
pub fn unwritable(fault: WriteFault) -> Error {
    Error::Unwritable(fault)
}

/// The error of a user without a home folder.
pub fn no_home(user: ForUser) -> Error {
    Error::NoHome(user)
}

/// A fault of a URL, destructured and rebuilt.
pub fn same_fault(fault: UrlFault) -> UrlFault {
    match fault {
        UrlFault::NoScheme => UrlFault::NoScheme,
        UrlFault::BadPort => UrlFault::BadPort,
        UrlFault::BadCharacter => UrlFault::BadCharacter,
        UrlFault::HostRequired => UrlFault::HostRequired,
    }
}

/// A write fault, destructured and rebuilt.
pub fn same_write_fault(fault: WriteFault) -> WriteFault {
    match fault {
        WriteFault::HelperName => WriteFault::HelperName,
        WriteFault::HelperParts => WriteFault::HelperParts,
        WriteFault::RelativeSsh => WriteFault::RelativeSsh,
        WriteFault::UserWithoutHost => WriteFault::UserWithoutHost,
    }
}

/// A write error, destructured and rebuilt.
pub fn same_write_error(error: WriteError) -> WriteError {
    match error {
        WriteError::Fault(fault) => unwritten(fault),
        WriteError::Io(error) => failed(error),
    }
}

/// The write error of a location without a text.
pub fn unwritten(fault: WriteFault) -> WriteError {
    WriteError::Fault(fault)
}

/// The write error of a writer that failed.
pub fn failed(error: io::Error) -> WriteError {
    WriteError::Io(error)
}
