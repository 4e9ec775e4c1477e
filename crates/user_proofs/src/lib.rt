//! Functions that users of `gix_url`, `git_rules` and `git_modules` prove by their contracts alone, and the
//! examples of the documents.
#![tactic(auto)]

pub mod answering;
#[cfg(test)]
mod boxes;
#[cfg(test)]
mod calling;
#[cfg(test)]
mod changing;
pub mod commands;
#[cfg(test)]
mod components;
pub mod credentials;
#[cfg(test)]
mod failing;
pub mod modules;
pub mod parts;
pub mod policy;
#[cfg(test)]
mod reading;
#[cfg(test)]
mod refusals;
#[cfg(test)]
mod stored;
#[cfg(test)]
mod values;
