//! The dangers of a text as they are shown: names for programs, words for people.

use git_audit::danger::Danger;
use std::alloc::{AllocError, Global};
use std::fmt::Write;

/// Returns the names of dangers, in their order.
pub fn names(alloc: Global, found: &[Danger]) -> Result<Vec<&'static str>, AllocError> {
    let mut names = Vec::new(alloc);
    for danger in found {
        names.push(danger.name())?;
    }
    Ok(names)
}

/// Appends dangers in words, after the label `danger`. Appends nothing if there is no danger.
pub fn push_words(out: &mut String, found: &[Danger]) -> Result<(), AllocError> {
    let mut before = "; danger: ";
    for danger in found {
        let words = danger.words();
        write!(out, "{before}{words}")?;
        before = ", ";
    }
    Ok(())
}
