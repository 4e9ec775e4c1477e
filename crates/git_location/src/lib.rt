//! Borrowed Git locations: [`url_ref::UrlRef`], whose fields are slices of other texts.
//!
//! Everything that doesn't own a location is defined here, once: reading into a caller's buffer, writing, the
//! settled class, and the tests of arguments. [`lines::run`] does the work of the program `locations`; no other
//! function here allocates. How often it allocates, and how long it takes, is tested, not proved.
#![tactic(auto)]

mod accessors;
pub mod argument;
mod buffer;
pub mod display;
mod error_text;
pub mod lines;
pub mod parse_error;
pub mod read;
mod rows;
pub mod settled;
mod to_url_ref;
pub mod url_ref;
pub mod value;
pub mod write_error;
pub mod writer;
