//! The errors of writing: why a location has no text, and why it was not written to a writer.

use std::io;
use thiserror::Error;

/// Why a location has no text. A location that was read has one (`law_closed`); a location that a program
/// built from fields, or changed, may have none.
///
/// ```
/// fn lacks_host(error: &WriteError) -> bool {
///     matches!(error, WriteError::Fault(WriteFault::UserWithoutHost))
/// }
/// ```
#[derive(Clone, Copy, Debug, PartialEq, Eq)]
pub enum WriteFault {
    /// The name of the remote helper isn't valid.
    HelperName,
    /// A remote helper has a user, a password, a host or a port.
    HelperParts,
    /// A relative path of Secure Shell has no host, or has a password or a port.
    RelativeSsh,
    /// A user has no host.
    UserWithoutHost,
}

/// Why a location was not written to a writer.
///
/// ```
/// fn lacks_host(error: &WriteError) -> bool {
///     matches!(error, WriteError::Fault(WriteFault::UserWithoutHost))
/// }
/// ```
#[derive(Debug, Drop, Error)]
pub enum WriteError {
    /// The location has no text. Nothing was written.
    #[error("the location can't be written: {0}")]
    Fault(WriteFault),
    /// The writer failed. How much it wrote is unspecified.
    #[error("the writer failed: {0}")]
    Io(io::Error),
}
