//! The class of locations in whose texts Git reads the same place.
//!
//! [`agreement::agrees_with_git`] decides the class, and [`web_conditions::unmet_web_condition`] names the first
//! condition that a location of HTTP doesn't meet. No function here allocates.
#![tactic(auto)]

pub mod agreement;
mod web;
pub mod web_conditions;
