//! Functions over texts, which users prove by the contracts alone: whether texts are locations, and that a written text
//! is parsed as the same location.

ghost use Rattle.std.specs.Prelude.{◌≡◌, ◌↔◌, IfErr, IfOk, IsTrue};
ghost use Rattle.gix_url.specs.Grammar.{Spells};
ghost use Rattle.gix_url.specs.Settled.{IsSettled};
ghost use Rattle.gix_url.specs.Location.{Location, fields};
ghost use Rattle.gix_url.specs.declared.error.Error.TheVariants as error;

use crate::boxes::{boxed, read};
use bstr::BStr;
use gix_url::parse::parse;
use gix_url::{Error, Url};
use std::alloc::Global;
use std::process::Abort;
use std::test::Fail;

/// Whether bytes that somebody sent spell a location; where memory is refused there is no answer.
fn is_location(alloc: Global, bytes: &[u8]) -> Result<bool, Error>
    ensures decided { IfOk result (λ is. IsTrue is ↔ (v : Location) × Spells bytes.now v) }
    ensures memory { IfErr result (λ e. e ≡ error.Memory) }
{
    match parse(alloc, BStr::new(bytes)) {
        Ok(_) => Ok(true),
        Err(error) => {
            if error.is_memory() {
                Err(error)
            } else {
                Ok(false)
            }
        }
    }
}

/// Parses the text of a location. For a settled location the result has the same public fields, and the only possible
/// error is `Memory`.
fn through_text(alloc: Global, url: &Url) -> Result<Url, Error>
    ensures same { IsSettled url.now → IfOk result (λ read. fields read ≡ fields url.now) }
    ensures memory { IsSettled url.now → IfErr result (λ e. e ≡ error.Memory) }
{
    let text = url.to_bstring(alloc)?;
    parse(alloc, text.as_bstr())
}

/// Checks whether bytes are a location.
fn is_read(rt: &impl Abort, alloc: Global, bytes: &[u8], want: bool) -> Result<(), Fail> {
    assert!(rt; is_location(alloc, bytes)? == want);
    Ok(())
}

#[test]
fn locations_are_told_from_other_bytes(rt: HostRuntime) -> Result<(), Fail> {
    is_read(&rt, rt.alloc(), b"h:p", true)?;
    is_read(&rt, rt.alloc(), b"h:", false)?;
    is_read(&rt, rt.alloc(), b"", false)
}

/// Checks that the text of a location is parsed as one with the same user, host and path.
fn comes_back(rt: &impl Abort, alloc: Global, text: &str, url: &Url) -> Result<(), Fail> {
    let back = boxed(alloc, through_text(alloc, url)?)?;
    assert!(rt;
        back.user == url.user && back.host == url.host && back.path == url.path,
        "{text}"
    );
    Ok(())
}

/// Texts of settled locations.
static TEXTS: [&str; 4] = [
    "https://u%40:p%3A@h:8080/a%20b?c#d",
    "ssh://git@h:22/~/x",
    "u@[::1]:p",
    "a::b://c",
];

#[test]
fn what_is_written_comes_back(rt: HostRuntime) -> Result<(), Fail> {
    for &text in TEXTS.as_slice() {
        let url = read(rt.alloc(), text)?;
        comes_back(&rt, rt.alloc(), text, &url)?;
    }
    Ok(())
}
