//! Boxes of values that tests own: a function that owns a box drops it by one call, whatever the value is.

use gix_url::Url;
use std::alloc::Global;
use std::test::Fail;

/// Puts a value into a box.
pub fn boxed<T: Drop>(alloc: Global, value: T) -> Result<Box<T>, Fail> {
    match Box::new(alloc, value) {
        Ok(boxed) => Ok(boxed),
        Err(_) => Err(Fail::from("out of memory")),
    }
}

/// Parses a text, and puts the location into a box.
pub fn read(alloc: Global, text: &str) -> Result<Box<Url>, Fail> {
    boxed(alloc, Url::from_text(alloc, text)?)
}
