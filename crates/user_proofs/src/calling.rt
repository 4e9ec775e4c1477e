//! Functions that users prove by the contracts of the library alone: the callers of `docs/CALLING.md`.

ghost use Rattle.std.specs.Prelude.{◌≡◌, IfErr, IfOk, IfSome, IsSome, Some, string_bytes, true};
ghost use Rattle.bstr.specs.Owned.{bstring_bytes};
ghost use Rattle.gix_url.specs.declared.error.Error.TheVariants as error;
ghost use Rattle.gix_url.specs.GitClass.{ReadsOwn};
ghost use Rattle.gix_url.specs.Grammar.{Spells};
ghost use Rattle.gix_url.specs.Readings.{IsAgain, Refuses};
ghost use Rattle.gix_url.specs.Settled.{IsSettled};
ghost use Rattle.git_readers.specs.Conditions.{IsUnambiguous};
ghost use Rattle.gix_url.specs.Text as spec;
ghost use Rattle.gix_url.specs.Location.{Location, fields};

use crate::boxes::{boxed, read};
use crate::commands::words_to_fetch;
use crate::credentials::headers_for;
use bstr::BString;
use git_rules::config;
use gix_url::laws::{law_git, law_separation, law_value};
use gix_url::{Error, Url};
use std::alloc::Global;
use std::process::Abort;
use std::test::Fail;

/// The host that a text names, if Git and other readers are known to find it in the text that is written.
fn host_of(alloc: Global, text: &str) -> Result<Option<String>, Error>
    ensures named { IfOk result (λ host. IfSome host (λ h. (v : Location) × Spells text.now v × IsUnambiguous v × (v.host ≡ Some (string_bytes h)))) }
    ensures refused { IfErr result (Refuses text.now) }
{
    let url = Url::from_text(alloc, text)?;
    if !url.is_unambiguous() {
        return Ok(None); // of `ssh://github.com/@[evil.com]/a`, for which Git connects to `evil.com`
    }
    Ok(url.host)
}

/// The text for another user of what a text names, if all readers find in it just that: nothing but the user is another.
fn for_user(alloc: Global, text: &str, user: String) -> Result<Option<BString>, Error>
    ensures { IfOk result (λ new. IfSome new (λ t. (v : Location) × (w : Location) × Spells text.now v
        × Spells (bstring_bytes t) w × (fields w ≡ fields (record v { user = Some (string_bytes user) })))) }
{
    let mut url = Url::from_text(alloc, text)?;
    url.user = Some(user);
    if !url.is_unambiguous() {
        return Ok(None);
    }
    let written = url.to_bstring(alloc)?;
    Ok(Some(written))
}

/// Whether two remotes are written alike, in texts that all readers read alike. Then they have the same public
/// fields.
fn are_alike(alloc: Global, one: &Url, other: &Url) -> Result<bool, Error>
    ensures { IfOk result (λ alike. alike ≡ true → fields one.now ≡ fields other.now) }
{
    if !one.is_unambiguous() || !other.is_unambiguous() {
        return Ok(false);
    }
    law_value(one);
    law_value(other);
    law_separation();
    let text = one.to_bstring(alloc)?;
    let other_text = other.to_bstring(alloc)?;
    Ok(text.as_bytes() == other_text.as_bytes())
}

/// What the text of a location is read as, if the location is settled: its public fields and its text are those of
/// the location, and the only possible error is `Memory`.
fn read_back(alloc: Global, url: &Url) -> Result<Option<Url>, Error>
    ensures found { IfOk result (λ back. IsSettled url.now → IsSome back) }
    ensures again { IfOk result (λ back. IfSome back (IsAgain url.now)) }
    ensures refused { IfErr result (λ e. e ≡ error.Memory) }
{
    if !url.is_settled() {
        return Ok(None);
    }
    let back = url.reread(alloc)?;
    Ok(Some(back))
}

/// The text of a location for Git, if Git reads the location's own parts in it: of HTTP, its credential code and a reader of
/// URIs.
fn text_for_git(alloc: Global, url: &Url) -> Result<Option<BString>, Error>
    ensures { IfOk result (λ new. IfSome new (λ t. ReadsOwn (bstring_bytes t) url.now)) }
{
    if !url.agrees_with_git() {
        return Ok(None);
    }
    law_value(url);
    law_git();
    let written = url.to_bstring(alloc)?;
    Ok(Some(written))
}

/// Checks a part, if there is one.
fn is(rt: &impl Abort, part: Option<&str>, want: Option<&str>) {
    assert_eq!(rt; part, want);
}

/// Checks the text that was made from another one, if there is one.
fn is_text(rt: &impl Abort, text: &str, made: &Option<BString>, want: Option<&str>) {
    let made = match made {
        None => None,
        Some(made) => Some(made.as_bytes()),
    };
    assert!(rt; made == bytes(want), "what is made of {text}");
}

/// The bytes of a text, if there is one.
fn bytes(text: Option<&str>) -> Option<&[u8]> {
    match text {
        None => None,
        Some(text) => Some(text.as_bytes()),
    }
}

/// Checks the host of a text.
fn names(rt: &impl Abort, alloc: Global, text: &str, want: Option<&str>) -> Result<(), Fail> {
    is(rt, host_of(alloc, text)?.as_deref(), want);
    Ok(())
}

/// Checks that a text without a host is refused.
fn is_refused(rt: &impl Abort, host: Result<Option<String>, Error>) {
    let is_refused = host.is_err();
    drop(host);
    assert!(rt; is_refused);
}

#[test]
fn hosts_that_come_back(rt: HostRuntime) -> Result<(), Fail> {
    let host = Some("example.com");
    names(&rt, rt.alloc(), "ssh://git@example.com/gitoxide", host)?;
    names(&rt, rt.alloc(), "[host]::path", None)?;
    names(&rt, rt.alloc(), "ssh://github.com/@[evil.com]/a/b", None)?;
    is_refused(&rt, host_of(rt.alloc(), "http://"));
    Ok(())
}

/// Checks the text for another user of the location of a text.
fn renames(
    rt: &impl Abort,
    alloc: Global,
    text: &str,
    user: &str,
    want: Option<&str>,
) -> Result<(), Fail> {
    let user = String::from_str(alloc, user)?;
    is_text(rt, text, &for_user(alloc, text, user)?, want);
    Ok(())
}

#[test]
fn another_user_in_the_same_place(rt: HostRuntime) -> Result<(), Fail> {
    renames(
        &rt,
        rt.alloc(),
        "ssh://git@h/p",
        "deploy",
        Some("ssh://deploy@h/p"),
    )?;
    renames(&rt, rt.alloc(), "ssh://git@h/p", "a@b/c:d", None)?;
    renames(&rt, rt.alloc(), "git@h:p", "a:b", None)
}

/// Remotes, and whether they are written alike.
static REMOTES: [(&str, &str, bool); 3] = [
    (
        "https://Example.com:0443/a",
        "https://example.com:443/a",
        true,
    ),
    ("https://Example.com:0443/a", "https://example.com/a", false),
    ("[host]::path", "[host]::path", false),
];

/// Checks whether remotes are written alike.
fn is_alike(
    rt: &impl Abort,
    alloc: Global,
    one: &Url,
    other: &Url,
    alike: bool,
) -> Result<(), Fail> {
    assert!(rt; are_alike(alloc, one, other)? == alike, "{one} and {other}");
    Ok(())
}

#[test]
fn remotes_by_their_texts(rt: HostRuntime) -> Result<(), Fail> {
    for &(one, other, alike) in REMOTES.as_slice() {
        let one = read(rt.alloc(), one)?;
        let other = read(rt.alloc(), other)?;
        is_alike(&rt, rt.alloc(), &one, &other, alike)?;
    }
    Ok(())
}

/// Texts, and the text for Git of each if Git reads it alike.
static FOR_GIT: [(&str, Option<&str>); 5] = [
    ("ssh+git://u@H:022/p", Some("ssh://u@h:22/p")),
    ("ssh://u:p@h/p", None),
    ("git://u@h/p", None),
    ("https://u:p@H:0443/p", Some("https://u:p@h:443/p")),
    ("https://127.1/p", None),
];

/// Checks the text for Git of a text.
fn is_for_git(rt: &impl Abort, alloc: Global, text: &str, want: Option<&str>) -> Result<(), Fail> {
    let url = read(alloc, text)?;
    is_text(rt, text, &text_for_git(alloc, &url)?, want);
    Ok(())
}

#[test]
fn texts_for_git(rt: HostRuntime) -> Result<(), Fail> {
    for &(text, want) in FOR_GIT.as_slice() {
        is_for_git(&rt, rt.alloc(), text, want)?;
    }
    Ok(())
}

/// Checks the last two words of a command that fetches: the destination and the remote command.
fn ends_in(rt: &impl Abort, mut words: Vec<BString>, destination: &[u8], remote: &[u8]) {
    let last = words.pop();
    let before = words.pop();
    assert!(rt; last.is_some_and(|it| it.as_bytes() == remote));
    assert!(rt; before.is_some_and(|it| it.as_bytes() == destination));
}

#[test]
fn user_and_path_come_through(rt: HostRuntime) -> Result<(), Fail> {
    let url = read(rt.alloc(), "git@github.com:a/b.git")?;
    match words_to_fetch(rt.alloc(), &url)? {
        None => assert!(rt; false, "Git reads the same place"),
        Some(words) => ends_in(&rt, words, b"git@github.com", b"git-upload-pack 'a/b.git'"),
    }
    for text in ["ssh://-h/p", "ssh://github.com/@[evil.com]/a/b"] {
        let url = read(rt.alloc(), text)?;
        assert!(rt; words_to_fetch(rt.alloc(), &url)?.is_none());
    }
    Ok(())
}

/// A configuration with headers: for a place, for all names of a domain, and for all places.
static HEADERS: &[u8] =
    b"http.https://h/a.extraheader\na\0http.https://*.h.extraheader\nb\0http.extraheader\nc\0";

/// Checks the one header that is sent for the location of a text, by the index of its entry.
fn sends(rt: &impl Abort, alloc: Global, text: &str, want: Option<&usize>) -> Result<(), Fail> {
    let (mut buffer, mut other) = ([0u8; 256], [0u8; 256]);
    let entries = config::entries(alloc, HEADERS)?;
    let url = read(alloc, text)?;
    match headers_for(alloc, &url, &entries, &mut buffer, &mut other) {
        Ok(sent) => {
            assert!(rt;
                sent.first() == want && sent.len() <= 1,
                "the headers for {text}"
            );
        }
        Err(_) => assert!(rt; false, "the headers for {text} are found"),
    }
    Ok(())
}

#[test]
fn headers_go_to_their_place(rt: HostRuntime) -> Result<(), Fail> {
    sends(&rt, rt.alloc(), "https://h/a/b", Some(&0))?;
    sends(&rt, rt.alloc(), "https://g.h/", Some(&1))?;
    sends(&rt, rt.alloc(), "https://h/b", Some(&2))?;
    sends(&rt, rt.alloc(), "ssh://h/a", None)
}

/// Checks a location that was parsed from a written text.
fn is_back(rt: &impl Abort, back: &Url) {
    is(rt, back.user.as_deref(), Some("user@name"));
    is(rt, back.password.as_deref(), Some("p:/"));
    is(rt, back.host.as_deref(), Some("h"));
    assert!(rt; back.port == Some(8080), "the port");
    assert!(rt; back.path.as_bytes() == b"/a b?c#d".as_slice(), "the path");
}

/// Parses the written text of the location of a text, if that is settled.
fn read_back_of(alloc: Global, text: &str) -> Result<Option<Box<Url>>, Fail> {
    let url = read(alloc, text)?;
    match read_back(alloc, &url)? {
        None => Ok(None),
        Some(back) => Ok(Some(boxed(alloc, back)?)),
    }
}

#[test]
fn what_is_written_is_read_back(rt: HostRuntime) -> Result<(), Fail> {
    let text = "https://user%40name:p%3A%2F@h:8080/a%20b?c#d";
    match read_back_of(rt.alloc(), text)? {
        None => assert!(rt; false, "the location is settled"),
        Some(back) => is_back(&rt, &back),
    }
    let unsettled = read_back_of(rt.alloc(), "[host]::path")?;
    assert!(rt; unsettled.is_none());
    Ok(())
}
