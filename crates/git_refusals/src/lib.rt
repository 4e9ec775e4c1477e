//! The reason for which a text spells no location.
//!
//! [`read::read`] returns the slices that `git_syntax` finds in a text. For a text that spells no location it
//! returns the text's [`refusal::Refusal`]: one reason at one place, the first flaw in the order of checks. No
//! function here allocates.
#![tactic(auto)]

mod authority;
mod characters;
mod escapes;
mod form;
mod host;
mod place;
pub mod read;
pub mod reason;
pub mod refusal;
mod scp;
mod url;
mod words;
