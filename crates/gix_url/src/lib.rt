//! Parses, writes and compares Git locations: remote helpers, URLs, the scp form and local paths.
//!
//! [`parse::parse`] reads bytes and [`Url::from_text`] text; [`Url::write_to`] and [`Url::to_bstring`] write a
//! location. The text of a location that [`Url::is_settled`] accepts is read by this library as the same public
//! fields and written the same again. Git and other programs may read it as another place: before a host is
//! trusted or a location passed on, ask [`Url::is_unambiguous`]. [`Url::user_as_argument`] and its like report
//! which fields a command may receive.
//!
//! This crate has the types that own bytes. Everything that only reads a location is defined on [`UrlRef`], in
//! the crate `git_location`, and the reader of texts in `git_syntax`; this crate re-exports all that is public.
//! How often a function allocates, and how long it takes, is tested, not proved.
//!
//! ```
//! /// The host that a text names, if Git and other readers are known to find it in the text that is written.
//! fn host_of(alloc: Global, text: &str) -> Result<Option<String>, Error> {
//!     let url = Url::from_text(alloc, text)?;
//!     if !url.is_unambiguous() {
//!         return Ok(None); // of `ssh://github.com/@[evil.com]/a`, for which Git connects to `evil.com`
//!     }
//!     Ok(url.host)
//! }
//! ```
#![tactic(auto)]

mod accessors;
mod argument;
mod canonical;
mod components;
mod copy;
mod debug;
mod decoded;
mod display;
mod error;
pub mod expand_path;
mod from_parts;
mod git;
mod home_law;
mod home_user;
pub mod ipv6;
pub mod laws;
mod location;
mod order;
pub mod parse;
mod reread;
mod rows;
mod scheme;
mod settled;
pub mod stored;
pub mod testing;
mod writer;

pub use components::{PathComponents, QueryText};
pub use error::Error;
pub use git_class::agreement::agrees_with_git;
pub use git_class::web_conditions::{WebCondition, unmet_web_condition};
pub use git_location::argument::ArgumentSafety;
pub use git_location::lines;
pub use git_location::parse_error::ParseError;
pub use git_location::url_ref::UrlRef;
pub use git_location::write_error::{WriteError, WriteFault};
pub use git_parts::parts::{PartForm, Parts, Span, parts_of};
pub use git_readers::unambiguous;
pub use git_reads::{credential, transport};
pub use git_refusals::reason::{Reason, RefusalKind};
pub use git_refusals::refusal::Refusal;
pub use git_syntax::refusal::UrlFault;
pub use git_syntax::scheme::SchemeRef;
pub use location::Url;
pub use scheme::Scheme;
