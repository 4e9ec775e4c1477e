//! A reason and its place in a piece of a text.

use crate::reason::Reason;

/// A reason and its place in the piece that was checked: `len` bytes from index `at`.
#[derive(Clone, Copy)]
pub struct Place {
    /// The reason.
    pub reason: Reason,
    /// The number of bytes of the piece before the place.
    pub at: usize,
    /// The length of the place, in bytes. It is 0 if something is missing.
    pub len: usize,
}
