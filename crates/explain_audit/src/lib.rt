//! Audits the submodules of a file or a configuration, and texts that Git uses as remotes, for programs that look for
//! faults.
//!
//! [`kind`] lists the kinds of findings, and the condition for which each makes a run fail. [`item`] has the findings
//! about a text, and [`module`] those about a file of submodules, with [`entry`], [`whole`], [`url`] and [`place`].
//! [`sarif`] has the objects of SARIF, and [`uri`] the file names in them. The findings are data; the crate above
//! formats them.
//!
//! A function allocates only if it can return an error; `AllocError` means that an allocation failed.
#![tactic(auto)]

pub mod entry;
pub mod item;
pub mod kind;
pub mod module;
pub mod place;
pub mod sarif;
pub mod uri;
pub mod url;
pub mod whole;
