//! A field that is read differently, in words.

use std::alloc::AllocError;
use std::fmt::{Display, Write};

/// Appends that a field is read as another one, or is present in only one of both.
pub(crate) fn push_change<T: Display + Drop>(
    out: &mut String,
    field: &str,
    here: Option<T>,
    instead: Option<T>,
) -> Result<(), AllocError> {
    match (here, instead) {
        (Some(here), Some(instead)) => write!(out, "the {field} {instead} in place of {here}"),
        (Some(here), None) => write!(out, "no {field} in place of {here}"),
        (None, Some(instead)) => write!(out, "the {field} {instead} in place of none"),
        (None, None) => write!(out, "another {field}"),
    }
}
