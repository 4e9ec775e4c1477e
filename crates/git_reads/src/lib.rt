//! Git's readings of a text that names a remote.
//!
//! [`transport::reading`] returns the place that Git's own transports read in any text, and
//! [`credential::reading`] the request of Git's credential code for the text of a URL. `docs/GIT.md`
//! describes both. They don't depend on this library's own reading of a text: `agrees_with_git` tests whether
//! the two agree. How often a function allocates, and how long it takes, is tested, not proved.
#![tactic(auto)]

pub mod credential;
pub mod decode;
mod place;
pub mod port;
pub mod transport;
