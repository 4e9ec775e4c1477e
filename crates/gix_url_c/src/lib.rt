//! `gix_url` for C: a static library over its public calls.
//!
//! A location is numbers and the bytes of its parts ([`c_values::input::PartBytes`]). The caller owns all of them: no
//! export keeps a pointer, and nothing has to be freed. Each export builds a borrowed location from its arguments, makes
//! one call of the library, and reports the result by numbers ([`c_values::codes`]) and by bytes in the caller's buffer.
//! Its contract has the promises of that call, and states that after an error everything else is unchanged. An
//! export allocates only if it can return 1, which means that an allocation failed ("memory is refused").
//!
//! Here are only the exports, since compiling a static library proves it once more. `c_values` has the types that they
//! take and report, and the functions that they call.
//!
//! A slice is a pointer and a length in C, and a `Global` is nothing. Pointers aren't null: the C file that is linked
//! with this library (`bindings/c/gix_url.c`) checks them, and has the types of `bindings/c/include/gix_url.h`.
//! A program in C calls the functions of that header; `docs/BINDINGS.md` has an example.
#![tactic(auto)]

pub mod borrowing;
pub mod components;
pub mod looking;
pub mod part;
pub mod reading;
pub mod reasons;
pub mod rules;
pub mod writing;
