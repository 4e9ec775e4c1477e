//! Git's rules for submodules: the entries of a configuration file such as `.gitmodules`, its submodules, the
//! entries that `git fsck` refuses, and the resolution of relative URLs.
//!
//! Entries are those of `config` of `git_rules`. No function here opens a file or runs a program. No public
//! function allocates, except those that take a `Global`. How often a function allocates, and how long it takes,
//! is tested, not proved.
#![tactic(auto)]

pub mod config_file;
pub mod resolve;
pub mod submodules;
