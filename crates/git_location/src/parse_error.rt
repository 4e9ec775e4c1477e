//! The error of reading into a buffer.

use git_refusals::refusal::Refusal;
use thiserror::Error;

/// Why a text was not read into a buffer.
///
/// ```
/// /// Whether the same text is read if the buffer is as long as the text.
/// fn wants_longer(error: &ParseError) -> bool {
///     matches!(error, ParseError::NoRoom)
/// }
/// ```
#[derive(Clone, Copy, Debug, Error)]
pub enum ParseError {
    /// The buffer is shorter than the text, which spells a location.
    #[error("the buffer is shorter than the text")]
    NoRoom,
    /// The text spells no location.
    #[error("{0}")]
    Refused(Refusal),
}
