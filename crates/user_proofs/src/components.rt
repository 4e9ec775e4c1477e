//! Functions over paths, queries and fragments, which users prove by the contracts alone: a settled location of HTTP
//! keeps them.

ghost use Rattle.std.specs.Prelude.{◌≡◌, IfErr, IfOk, true};
ghost use Rattle.gix_url.specs.Components.{Components, ComponentsOf};
ghost use Rattle.gix_url.specs.Settled.{IsSettled, IsWeb};
ghost use Rattle.gix_url.specs.declared.error.Error.TheVariants as error;

use crate::boxes::read;
use gix_url::laws::{law_components, law_separation, law_value};
use gix_url::{Error, Url};
use std::alloc::Global;
use std::process::Abort;
use std::test::Fail;

/// Whether the paths of two locations have the same components.
fn are_made_alike(alloc: Global, one: &Url, other: &Url) -> Result<bool, Error>
    ensures alike { IfOk result (λ alike. (c : Components) → ComponentsOf one.now c → ComponentsOf other.now c → alike ≡ true) }
    ensures memory { IfErr result (λ e. e ≡ error.Memory) }
{
    law_components();
    let parts = one.path_query_fragment(alloc)?;
    let others = other.path_query_fragment(alloc)?;
    Ok(parts == others)
}

/// Whether the path of a location has the same components after its text is parsed again. For a settled location of
/// HTTP it has, and the only possible error is `Memory`.
fn keeps_components(alloc: Global, url: &Url) -> Result<bool, Error>
    ensures kept { IfOk result (λ kept. IsWeb url.now → IsSettled url.now → kept ≡ true) }
    ensures memory { IsSettled url.now → IfErr result (λ e. e ≡ error.Memory) }
{
    law_value(url);
    law_separation();
    law_components();
    let back = url.reread(alloc)?;
    are_made_alike(alloc, url, &back)
}

/// Settled locations of HTTP.
static TEXTS: [&str; 8] = [
    "http://h/",
    "https://u:p@h:8443/a%20b?c#d",
    "http://h/repo%23one?x=a%26b#fragment%23one",
    "http://h/?a+b=%2B&&c&=d#x+y",
    "http://h/a<b?c",
    "http://h/%3Fa?b",
    "https://[::1]/?a=1&a=2",
    "http://h/?#",
];

/// Checks that the location of a text is settled and keeps its components.
fn comes_back(rt: &impl Abort, alloc: Global, text: &str, url: &Url) -> Result<(), Fail> {
    let kept = keeps_components(alloc, url)?;
    assert!(rt; url.is_settled() && kept, "{text}");
    Ok(())
}

#[test]
fn components_come_back(rt: HostRuntime) -> Result<(), Fail> {
    for &text in TEXTS.as_slice() {
        let url = read(rt.alloc(), text)?;
        comes_back(&rt, rt.alloc(), text, &url)?;
    }
    Ok(())
}
