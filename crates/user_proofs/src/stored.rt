//! Functions over stored locations, which users prove by the contracts alone, and tests of them for a location of each
//! kind.

ghost use Rattle.std.specs.Prelude.{◌≡◌, ◌⊎◌, ℕ, List, IfErr, IfOk};
ghost use Rattle.bstr.specs.BStr.{bstr_bytes};
ghost use Rattle.bstr.specs.Owned.{bstring_bytes};
ghost use Rattle.gix_url.specs.Grammar.{Spells, SpellsHelper, SpellsLocal};
ghost use Rattle.gix_url.specs.Location.{Location};
ghost use Rattle.gix_url.specs.declared.error.Error.TheVariants as error;

use crate::boxes::{boxed, read};
use bstr::{BStr, BString};
use gix_url::laws::{law_closed, law_separation};
use gix_url::parse::parse;
use gix_url::{Error, Url};
use std::alloc::Global;
use std::process::Abort;
use std::test::Fail;

/// The location, stored and restored. A location that was parsed from a text comes back unchanged, its escaped path
/// included, and the only possible error is `Memory`.
fn kept(alloc: Global, url: &Url) -> Result<Url, Error>
    ensures same { IfOk result (λ back. (b : List ℕ) → Spells b url.now → back ≡ url.now) }
    ensures memory { IfErr result (λ e. e ≡ error.Memory) }
{
    law_closed();
    let stored = url.to_stored(alloc)?;
    Url::from_stored(alloc, stored)
}

/// The text of the location of these bytes, which is stored and restored in between. It is the bytes themselves for a
/// remote helper's form and a local path.
fn kept_text(alloc: Global, bytes: BStr<'_>) -> Result<BString, Error>
    ensures unchanged { IfOk result (λ text. (v : Location)
        → SpellsHelper (bstr_bytes bytes.entry) v ⊎ SpellsLocal (bstr_bytes bytes.entry) v
        → bstring_bytes text ≡ bstr_bytes bytes.entry) }
{
    law_closed();
    law_separation();
    let url = parse(alloc, bytes)?;
    let back = kept(alloc, &url)?;
    back.to_bstring(alloc)
}

/// Texts of each kind.
static TEXTS: [&str; 12] = [
    "https://u%40:p%3A@h:8080/a%20b?c#d",
    "http://h/a%2Fb",
    "http://:x@[::1%25eth0]/",
    "ssh://h/%7Ea",
    "ssh://git@h:22/~/x",
    "git://h/p",
    "x+y://h/a%25b",
    "file://h/a%20b",
    "u@[::1]:p",
    "/srv/x%20y",
    "a::b://c",
    "ext::sh -c x",
];

/// Checks the bytes that came back for a text.
fn is_same(rt: &impl Abort, text: &str, back: &[u8], want: &[u8]) {
    assert_eq!(rt; BStr::new(back), BStr::new(want), "a part of {text}");
}

/// Checks that two locations are equal in all their parts.
fn is_url(rt: &impl Abort, text: &str, back: &Url, url: &Url) {
    assert!(rt; *back == *url, "{text}");
}

/// Checks that the location of a text comes back.
fn comes_back(rt: &impl Abort, alloc: Global, text: &str, url: &Url) -> Result<(), Fail> {
    let back = boxed(alloc, kept(alloc, url)?)?;
    is_url(rt, text, &back, url);
    Ok(())
}

#[test]
fn what_was_read_comes_back(rt: HostRuntime) -> Result<(), Fail> {
    for &text in TEXTS.as_slice() {
        let url = read(rt.alloc(), text)?;
        comes_back(&rt, rt.alloc(), text, &url)?;
    }
    Ok(())
}

/// Forms of remote helpers and local paths.
static UNCHANGED: [&str; 3] = ["a::b://c", "/x::y", "ssh::address"];

#[test]
fn the_bytes_themselves_come_back(rt: HostRuntime) -> Result<(), Fail> {
    for &text in UNCHANGED.as_slice() {
        let back = kept_text(rt.alloc(), BStr::new(text.as_bytes()))?;
        is_same(&rt, text, back.as_bytes(), text.as_bytes());
    }
    Ok(())
}
