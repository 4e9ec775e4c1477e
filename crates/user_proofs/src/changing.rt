//! Functions that change a location, which users prove by the contracts alone.

ghost use Rattle.std.specs.Prelude.{◌≡◌, IfErr, IfOk, IfSome, IsUtf8, None};
ghost use Rattle.std.specs.Fn.{FnOnceTakesAt};
ghost use Rattle.bstr.specs.Owned.{bstring_bytes};
ghost use Rattle.gix_url.specs.Readings.{SpellsAgain};
ghost use Rattle.gix_url.specs.Location.Scheme.{file};
ghost use Rattle.gix_url.specs.declared.error.Error.TheVariants as error;

use bstr::BString;
use gix_url::{Error, Url};
use std::alloc::Global;
use std::process::Abort;
use std::test::Fail;

/// The text of a location without its password, if that is read as just that: nothing but the password is another, and
/// the only possible error is `Memory`.
fn without_password(alloc: Global, mut url: Url) -> Result<Option<BString>, Error>
    ensures kept { IfOk result (λ new. IfSome new (λ t. SpellsAgain (record url { password = None }) (bstring_bytes t))) }
    ensures memory { IfErr result (λ e. e ≡ error.Memory) }
{
    url.password = None;
    if !url.is_settled() {
        return Ok(None);
    }
    let text = url.to_bstring(alloc)?;
    Ok(Some(text))
}

/// Gives a local location the path that `resolve` returns. Its host stays the same, whatever the result is.
fn resolved<F: FnOnce(&str) -> Option<String> + Drop>(
    url: &mut Url,
    resolve: F,
) -> Result<(), Error>
    requires { url.old.scheme ≡ file → IsUtf8 url.old.path → FnOnceTakesAt F.FnOnce resolve url.old.path }
    ensures { url.new.host ≡ url.old.host }
{
    url.canonicalize(resolve)
}

/// Checks the text of a location without its password, if there is one.
fn is_without(rt: &impl Abort, text: &str, made: &Option<BString>, want: Option<&str>) {
    match (made, want) {
        (None, None) => {}
        (Some(made), Some(want)) => assert!(rt; made.as_bytes() == want.as_bytes(), "{text}"),
        _ => assert!(rt; false, "{text}"),
    }
}

/// Texts, and the text of each without its password. An empty user is written only before a password.
static TEXTS: [(&str, Option<&str>); 3] = [
    ("https://u:secret@h/p", Some("https://u@h/p")),
    ("ssh://h/p", Some("ssh://h/p")),
    ("http://:secret@h/", None),
];

#[test]
fn passwords_are_left_out(rt: HostRuntime) -> Result<(), Fail> {
    for &(text, want) in TEXTS.as_slice() {
        let url = Url::from_text(rt.alloc(), text)?;
        let made = without_password(rt.alloc(), url)?;
        is_without(&rt, text, &made, want);
    }
    Ok(())
}

#[test]
fn a_resolved_path_keeps_its_host(rt: HostRuntime) -> Result<(), Fail> {
    let mut url = Url::from_text(rt.alloc(), "file://host/a/../b")?;
    let path = String::from_str(rt.alloc(), "/b")?;
    let outcome = resolved(&mut url, |_| Some(path));
    assert!(rt; outcome.is_ok());
    drop(outcome);
    assert!(rt; url.host.as_deref() == Some("host") && url.path.as_bytes() == b"/b".as_slice());
    Ok(())
}
