//! The values of the exports for C: numbers, lengths, bytes in the caller's buffer, and the functions that make them.
//!
//! `gix_url_c` has the exports. Here are the types that they take and report, and the functions that they call. A value
//! is a location in C's form ([`input::PartBytes`]), the number of an error ([`codes`]), or a report about a result. The
//! clauses of a function that reports one say which outputs are unchanged after an error.
#![tactic(auto)]

pub mod borrowing;
pub mod buffer;
pub mod codes;
pub mod components;
pub mod input;
pub mod looking;
pub mod output;
pub mod part;
pub mod reading;
pub mod reasons;
pub mod rules;
mod tables;
pub mod writing;
