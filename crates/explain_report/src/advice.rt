//! Advice about a line: [`danger`] has warnings about the use of a location, and [`hint`] finds likely mistakes in a
//! line and its [`reading`].
//!
//! The conditions of hints are in `slip`, `pasted`, `host_name` and `web_page`.

pub mod danger;
pub mod hint;
mod host_name;
mod pasted;
pub mod reading;
pub(crate) mod slip;
mod web_page;
