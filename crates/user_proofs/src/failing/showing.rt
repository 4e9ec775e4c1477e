//! Locations that are written to a formatter that fails at each of its calls. It never receives the field `password`.

use super::streams::FailingFormatter;
use super::{is_whole, long};
use crate::boxes::{boxed, read};
use bstr::BStr;
use gix_url::Url;
use std::fmt::{self, Write};
use std::process::Abort;
use std::test::Fail;

/// Texts, and the text that shows the location of each. A text of more than 128 bytes, or with bytes that are not
/// UTF-8, takes several calls.
static TEXTS: [(&[u8], &str); 7] = [
    (b"ssh://u:secret@h/~a", "ssh://u:redacted@h/~a"),
    (
        b"http://u%40:s%3A%40@[::1]:80/a%20b",
        "http://u%40:redacted@[::1]:80/a%20b",
    ),
    (b"https://:s@h/", "https://:redacted@h/"),
    (
        b"ssh://u:secret@h:22/a/a/a/a/a/a/a/a/a/a/a/a/a/a/a/a/a/a/a/a/a/a/a/a/a/a/a/a/a/a/a/a/a/a/a/a/a/a/a/a/a/a/a/a/a/a/a/a/a/a/a/a/a/b",
        "ssh://u:redacted@h:22/a/a/a/a/a/a/a/a/a/a/a/a/a/a/a/a/a/a/a/a/a/a/a/a/a/a/a/a/a/a/a/a/a/a/a/a/a/a/a/a/a/a/a/a/a/a/a/a/a/a/a/a/a/b",
    ),
    (b"a::u:secret@h", "a::u:secret@h"),
    (b"user@[::1]:p", "user@[::1]:p"),
    (b"/a\xffb\xfe", "/a\u{fffd}b\u{fffd}"),
];

/// Shows a location, perhaps in another style, which is ignored.
fn show(out: &mut FailingFormatter<'_>, url: &Url, is_styled: bool) -> fmt::Result {
    if is_styled {
        write!(out, "{url:*^#60.7}")
    } else {
        write!(out, "{url}")
    }
}

/// Shows a location to a formatter that fails at each of its calls in turn, until everything is shown before the
/// failure.
fn is_shown(rt: &impl Abort, url: &Url, text: &str, is_styled: bool) -> Result<(), Fail> {
    for calls in 0..=text.len() {
        let left = Some(text.as_bytes());
        let mut out = FailingFormatter { left, calls };
        let is_all = show(&mut out, url, is_styled).is_ok();
        assert!(rt; out.left.is_some(), "{text}, {calls} calls");
        if is_all {
            assert!(rt; calls > 0 && is_whole(out.left), "{text}, {calls} calls");
            return Ok(());
        }
    }
    Err(Fail::from("it is never shown"))
}

#[test]
fn a_formatter_fails_at_each_call(rt: HostRuntime) -> Result<(), Fail> {
    for &(given, text) in TEXTS.as_slice() {
        let url = boxed(rt.alloc(), Url::from_bytes(rt.alloc(), BStr::new(given))?)?;
        is_shown(&rt, &url, text, false)?;
        is_shown(&rt, &url, text, true)?;
    }
    Ok(())
}

/// Shows a location to a formatter that fails after this number of calls: it receives a prefix of the text, or the
/// whole text.
fn is_front_shown(rt: &impl Abort, url: &Url, text: &str, calls: usize) {
    let left = Some(text.as_bytes());
    let mut out = FailingFormatter { left, calls };
    let is_all = show(&mut out, url, false).is_ok();
    let is_right = !is_all || is_whole(out.left);
    assert!(rt; out.left.is_some() && is_right, "{calls} calls");
    assert!(rt; is_all || calls < usize::MAX, "it is never shown");
}

#[test]
fn a_formatter_of_a_long_text_fails(rt: HostRuntime) -> Result<(), Fail> {
    let given = boxed(rt.alloc(), long(rt.alloc(), "ssh://u:secret@h")?)?;
    let text = boxed(rt.alloc(), long(rt.alloc(), "ssh://u:redacted@h")?)?;
    let url = read(rt.alloc(), given.as_str())?;
    for calls in [0, 1, 2, 3, 4, 5, 6, 7, 100, 10_000, usize::MAX] {
        is_front_shown(&rt, &url, text.as_str(), calls);
    }
    Ok(())
}
