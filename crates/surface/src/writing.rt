//! Writing.

use bstr::BString;
use gix_url::{Error, Url, WriteError, WriteFault};
use std::alloc::Global;
use std::io::Write;

/// Calls `Url::write_to`.
pub fn write_to<W: Write>(url: &Url, out: &mut W) -> Result<(), WriteError> {
    Url::write_to(url, out)
}

/// Calls `Url::to_bstring`.
pub fn to_bstring(url: &Url, alloc: Global) -> Result<BString, Error> {
    Url::to_bstring(url, alloc)
}

/// Calls `Url::text_len`.
pub fn text_len(url: &Url) -> Result<u128, WriteFault> {
    Url::text_len(url)
}
