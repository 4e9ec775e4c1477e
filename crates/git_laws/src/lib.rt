//! Laws of Git locations, over the definitions of the contracts alone, and examples of those definitions.
//!
//! The crate has no code: each function's contract is a law. Users of the other crates combine the laws with
//! the contracts of those crates, which name the same definitions.
#![tactic(auto)]

pub mod laws;
mod rows;
