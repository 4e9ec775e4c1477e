//! The places of the parts of a location in its text, and the laws of refusals and of parts.
//!
//! [`parts::parts_of`] returns the place of each part of a text that spells a location. [`front::shown_front`]
//! returns the front of a URL that is too long, which the error shows. No function here allocates.
#![tactic(auto)]

pub mod front;
pub mod laws;
pub mod parts;
