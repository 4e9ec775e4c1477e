//! The syntax of Git locations: the form of a text, and the slices that its location consists of.
//!
//! [`find::find`] returns slices of the text, or a flaw in it. The modules below it read texts, bytes, escapes,
//! IPv6 addresses, schemes and hosts. The types of locations are in the crates above; contracts here describe
//! a location by its eight fields (`specs/Location.antt`).
//!
//! No function here allocates. A test of a text returns the result of the definition that its contract names.
#![tactic(auto)]

pub mod address_law;
mod blocks;
mod byte_class;
pub mod bytes;
pub mod classify;
pub mod debug;
mod digits;
mod error_text;
pub mod escape;
pub mod find;
pub mod found;
pub mod home;
pub mod host;
pub mod ipv6;
pub mod length;
pub mod mask_law;
mod masks;
pub mod refusal;
pub mod rules;
mod runs;
pub mod scheme;
pub mod scp;
pub mod simple;
pub mod ssh_host;
pub mod text;
pub mod url;
pub mod url_syntax;
mod white_space;
