//! The class of locations in whose texts all readers of a family find the same fields.
//!
//! Programs that check a remote and programs that connect to it often read its text by different rules.
//! [`unambiguous::unmet_condition`] decides this class; [`law::law_unambiguous`] states the property for each
//! reader of the family. No function here allocates.
#![tactic(auto)]

mod classes;
pub mod groups;
mod host;
pub mod law;
mod path;
pub mod unambiguous;
