//! The page that `explain --html` writes: a table with a row for each line, and the objects of `--json`.
//!
//! [`page::Page`] takes the [`row::Row`] and the object of each line in turn, and then writes the page. Text is added
//! only through [`markup::Markup`], whose contract states that it adds no markup.
//!
//! A function allocates only if it can return an error; `AllocError` means that an allocation failed.
#![tactic(auto)]

pub mod markup;
pub mod page;
pub mod row;
mod template;
mod text;
