//! The specified public items of `gix_url`, each in its exact form, so that a change of a name, a field, a variant or a
//! signature doesn't compile.
//!
//! A type with public fields is destructured by a pattern that names all of them, and rebuilt by functions that take
//! their exact types. A call is made with arguments of its exact types, and its result is returned unchanged. Borrowed
//! byte texts are `BStr<'_>` by value throughout.
#![tactic(auto)]

pub mod arguments;
pub mod canonical;
pub mod components;
pub mod errors;
pub mod homes;
pub mod laws;
pub mod lines;
pub mod locations;
pub mod reading;
pub mod schemes;
pub mod stored;
pub mod traits;
pub mod writing;
