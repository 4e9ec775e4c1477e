//! The values of the exports over a configuration, and over texts that Git reads.
//!
//! A configuration is a slice of entries ([`entries::EntryBytes`]), which are copied into an array of the library's
//! entries. If Git stops at an entry, the place of the entry is reported ([`stops::Stop`]).

pub mod commands;
pub mod config;
pub mod credentials;
pub mod dangers;
pub mod entries;
mod pieces;
pub mod policies;
pub mod programs;
pub mod readings;
pub mod remotes;
pub mod rewriting;
pub mod secrets;
pub mod settings;
pub mod stops;
pub mod submodules;
mod written;
