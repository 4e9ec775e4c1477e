//! The exports over a configuration, and over texts that Git reads: `git_rules`, `git_modules`, `git_audit` and
//! `git_reads` for C.
//!
//! A configuration is a slice of entries ([`c_values::rules::entries::EntryBytes`]). An export copies them into an array
//! of the library's entries, makes one call of the library, and reports the result by numbers and bytes. If Git stops at
//! an entry, the place of the entry is reported ([`c_values::rules::stops::Stop`]).

pub mod commands;
pub mod config;
pub mod credentials;
pub mod dangers;
pub mod policies;
pub mod programs;
pub mod readings;
pub mod remotes;
pub mod rewriting;
pub mod secrets;
pub mod settings;
pub mod submodules;
