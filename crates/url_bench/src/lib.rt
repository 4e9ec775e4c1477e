//! Exports for programs in C, over one text each, so that their instructions can be counted.
//!
//! The exports only call `gix_url`, and their contracts follow from those of the calls. The lines are `remotes.txt`,
//! the program that calls the exports is `driver.c`, and `scripts/instructions` counts.
#![tactic(auto)]

ghost use Rattle.std.specs.Prelude.{◌≡◌, ◌<◌, ℕ, List, IsTrue, Ok, length};
ghost use Rattle.gix_url.specs.Grammar.{Spells};
ghost use Rattle.gix_url.specs.Settled.{IsSettled};
ghost use Rattle.gix_url.specs.Text as spec;
ghost use Rattle.gix_url.specs.Location.{Location};

use bstr::BStr;
use gix_url::{Url, UrlRef};
use std::alloc::Global;

/// Whether the bytes are a location.
#[unsafe(no_mangle)]
pub extern "C" fn url_bench_parse(alloc: Global, bytes: &[u8]) -> bool
    ensures { IsTrue result → (v : Location) × Spells bytes.now v }
{
    matches!(Url::from_bytes(alloc, BStr::new(bytes)), Ok(_))
}

/// Whether the bytes are parsed as a location in this buffer, without allocation.
#[unsafe(no_mangle)]
pub extern "C" fn url_bench_parse_in(bytes: &[u8], buffer: &mut [u8]) -> bool
    ensures { IsTrue result → (v : Location) × Spells bytes.now v }
{
    matches!(UrlRef::parse_in(bytes, buffer), Ok(_))
}

/// The length of the text of the location that the bytes are parsed as, or 0 if there is none.
#[unsafe(no_mangle)]
pub extern "C" fn url_bench_write(alloc: Global, bytes: &[u8]) -> usize
    ensures { 0 < result → (v : Location) × (text : List ℕ)
        × Spells bytes.now v × (spec.text v ≡ Ok text) × (length text ≡ result) }
{
    let Ok(url) = Url::from_bytes(alloc, BStr::new(bytes)) else {
        return 0;
    };
    match url.to_bstring(alloc) {
        Ok(text) => text.as_bytes().len(),
        Err(_) => 0,
    }
}

/// Whether the bytes are a settled location.
#[unsafe(no_mangle)]
pub extern "C" fn url_bench_settled(alloc: Global, bytes: &[u8]) -> bool
    ensures { IsTrue result → (v : Location) × Spells bytes.now v × IsSettled v }
{
    match Url::from_bytes(alloc, BStr::new(bytes)) {
        Ok(url) => url.is_settled(),
        Err(_) => false,
    }
}
