//! The dangers of a remote from an untrusted source, and the secrets of a text that are hidden.
//!
//! The crate builds on `git_location` for parsed locations, on `git_reads` and `git_readers` for the readings of
//! Git and of other programs, and on `git_rules` to compare hosts. No function here opens a file or runs a
//! program. No public function allocates, except those that take a `Global`. How often a function allocates, and
//! how long it takes, is tested, not proved.
#![tactic(auto)]

pub mod danger;
pub mod misreading;
pub mod secret;
