//! Git's rules for a location in a configuration: rewriting it, matching it, choosing its transport, and
//! building its Secure Shell command.
//!
//! The inputs are borrowed locations ([`git_location::url_ref::UrlRef`]; `as_ref` of `gix_url`'s `Url` returns
//! one) and the text that `git config --list -z` writes. No function here opens a file or runs a program. No
//! public function allocates, except those that take a `Global` and those that add a rule to
//! `rewrite::Rewrites`; this isn't repeated below. How often a function allocates, and how long it takes, is
//! tested, not proved.
#![tactic(auto)]

pub mod boolean;
pub mod config;
pub mod credentials;
pub mod normal;
pub mod number;
pub mod pattern;
pub mod protocols;
pub mod remote;
pub mod rewrite;
pub mod ssh;
pub mod stops;
mod word;
