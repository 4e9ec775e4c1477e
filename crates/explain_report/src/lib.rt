//! Reports on a line for `explain`: its location or its refusal, how other programs read it, how Git uses it by a
//! configuration, and hints about likely mistakes.
//!
//! [`location_report`] assembles the report of a location from [`form`], [`path`], [`git_report`], [`credential`],
//! [`curl`] and [`difference`]; [`refusal`] explains why a line is refused. [`text`] shows lines without secrets,
//! [`rules`] applies a configuration to a line, [`remotes`] reports the remotes of the configuration itself,
//! [`readers`] lists other readings, [`advice`] has dangers and hints, and [`finding`] has the conditions for which a
//! run may fail. `marks` cuts texts for all of them. The reports are data; the crates above format them.
//!
//! A function allocates only if it can return an error; `AllocError` means that an allocation failed.
#![tactic(auto)]

pub mod advice;
mod change;
pub mod credential;
pub mod curl;
pub mod difference;
mod facts;
pub mod finding;
pub mod form;
pub mod git_report;
pub mod location_report;
mod marks;
pub mod memory;
pub mod path;
pub mod readers;
pub mod refusal;
pub mod remotes;
pub mod rules;
pub mod text;
mod web;
