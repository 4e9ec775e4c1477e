//! Functions over locations as values, which users prove by the contracts alone: sorting, equality and copies.

ghost use Rattle.std.specs.Prelude.{◌≡◌, ◌↔◌, IfErr, IfOk, IsSorted, IsTrue};
ghost use Rattle.gix_url.specs.declared.error.Error.TheVariants as error;

use crate::boxes::read;
use gix_url::laws::law_order;
use gix_url::{Error, Url};
use std::alloc::{AllocError, Global};
use std::process::Abort;
use std::test::Fail;

/// Sorts items of any type.
fn sorted<T: Ord + Drop>(mut items: Vec<T>) -> Result<Vec<T>, AllocError>
    ensures { IfOk result (λ all. IsSorted T.cmp all.items) }
{
    items.sort()?;
    Ok(items)
}

/// Whether two locations are equal.
fn are_one(a: &Url, b: &Url) -> bool
    ensures { IsTrue result ↔ (a.now ≡ b.now) }
{
    law_order();
    a == b
}

/// Whether a copy of the location is equal to it. It is, if memory isn't refused.
fn equals_its_copy(alloc: Global, url: &Url) -> Result<bool, Error>
    ensures equal { IfOk result IsTrue }
    ensures memory { IfErr result (λ e. e ≡ error.Memory) }
{
    law_order();
    let copy = url.clone(alloc)?;
    Ok(copy == *url)
}

/// Texts of locations, each before the next.
static IN_ORDER: [&str; 6] = [
    "/b",
    "git://h/a",
    "ssh://h/a",
    "ssh://u@h/a",
    "http://h/a",
    "http://h/%61",
];

/// The locations of these texts.
fn read_all(alloc: Global, texts: &[&str]) -> Result<Vec<Url>, Fail> {
    let mut all = Vec::new(alloc);
    for &text in texts {
        all.push(Url::from_text(alloc, text)?)?;
    }
    Ok(all)
}

/// All locations, sorted from the last to the first.
fn sorted_backwards(alloc: Global) -> Result<Vec<Url>, Fail> {
    let mut all = read_all(alloc, IN_ORDER.as_slice())?;
    all.reverse();
    Ok(sorted(all)?)
}

/// Checks that two lists are equal.
fn are_equal(rt: &impl Abort, one: &[Url], other: &[Url]) {
    assert!(rt; one == other);
}

#[test]
fn a_list_is_sorted(rt: HostRuntime) -> Result<(), Fail> {
    let sorted = sorted_backwards(rt.alloc())?;
    let forwards = read_all(rt.alloc(), IN_ORDER.as_slice())?;
    are_equal(&rt, sorted.as_slice(), forwards.as_slice());
    Ok(())
}

/// Checks whether a location is equal to the location of a text.
fn is_one(rt: &impl Abort, alloc: Global, url: &Url, text: &str, one: bool) -> Result<(), Fail> {
    let other = read(alloc, text)?;
    assert!(rt; are_one(url, &other) == one, "{url} and {text}");
    Ok(())
}

/// Checks that a copy of the location is equal to it.
fn is_copied(rt: &impl Abort, alloc: Global, url: &Url) -> Result<(), Fail> {
    assert!(rt; equals_its_copy(alloc, url)?);
    Ok(())
}

#[test]
fn equal_locations_are_one(rt: HostRuntime) -> Result<(), Fail> {
    let url = read(rt.alloc(), "http://h/%61")?;
    // the same fields, and the same text
    is_one(&rt, rt.alloc(), &url, "http://h/a", false)?;
    is_one(&rt, rt.alloc(), &url, "http://h/%61", true)?;
    is_copied(&rt, rt.alloc(), &url)
}
