//! The examples of the documents and of the doc comments, letter by letter. Each is proved to be safe and to terminate.
//!
//! `tests/documents` refuses a block of code in a document that isn't in one of these files. A block of
//! `docs/CALLING.md` with clauses is in `crates/user_proofs`.
#![tactic(auto)]

mod borrowed;
mod copies;
mod dangers;
mod differences;
mod first_hour;
mod git_credentials;
mod git_readings;
mod in_buffer;
mod misreadings;
mod parts;
mod paths;
mod patterns;
mod programs;
mod reading;
mod refusals;
mod remotes;
mod resolved;
mod rewriting;
mod rules;
mod secrets;
mod section;
mod ssh;
mod submodules;
mod types;
mod writing;
