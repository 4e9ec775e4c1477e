//! The reading of a location's own text, for a location that isn't settled.
//!
//! The text is parsed again and compared with the location, field by field in declared order. A password is reported as
//! the word `redacted`.

ghost use Rattle.std.specs.Prelude.{◌≡◌, ◌↔◌, IfOk, IfSome, IsNone, IsSome, Ok, decimal, option_map, string_bytes};
ghost use Rattle.std.specs.List.{list_any};
ghost use Rattle.bstr.specs.BStr.{bstr_bytes};
ghost use Rattle.gix_url.specs.Settled.{IsSettled};
ghost use Rattle.gix_url.specs.Text.{text};
ghost use Rattle.gix_url.specs.Views.{owned_scheme};
ghost use Rattle.explain_report.specs.Differences.{HaveSameEnd, ReportsField, ReportsReread, flag_word, is_mark, scheme_words};
ghost use Rattle.explain_report.specs.Facts.{AreFactsOf};
ghost use Rattle.explain_report.specs.Marks.{some_passes};

use crate::change::push_change;
use crate::facts::Facts;
use crate::location_report::hidden_password;
use crate::memory::both;
use crate::refusal::Refusal;
use crate::text::line::Quoted;
use bstr::{BStr, ByteSlice};
use gix_url::parse::parse;
use gix_url::{Error, Scheme, Url};
use serde::Serialize;
use std::alloc::{AllocError, Global};

/// The reading of a location's own text. Without a difference or a refusal, the text is read as the same fields,
/// although this isn't proved.
#[derive(Drop, Serialize)]
pub struct Reread {
    /// The first field that differs.
    pub difference: Option<Difference>,
    /// The reason why the text is refused.
    pub refusal: Option<Refusal>,
    /// The reading in words.
    pub words: String,
}

/// A field that differs.
#[derive(Drop, Serialize)]
pub struct Difference {
    /// The name of the field.
    pub field: &'static str,
    /// The field of the location, if it is present.
    pub here: Option<String>,
    /// The field that is read in the text, if it is present.
    pub instead: Option<String>,
}

impl Reread {
    /// Returns the reading of the location's text, or `None` if the location is settled.
    pub(crate) fn of(alloc: Global, url: &Url, facts: &Facts) -> Result<Option<Reread>, AllocError>
        requires { AreFactsOf url.now facts.now }
        ensures settled { IfOk result (λ reread. IsNone reread ↔ IsSettled url.now) }
        ensures report { IfOk result (λ reread. IfSome reread (λ it. IfSome it.difference (ReportsReread url.now))) }
    {
        if facts.is_settled {
            return Ok(None);
        }
        match &facts.text {
            Ok(text) => Ok(Some(Reread::of_text(alloc, url, text.as_bstr())?)),
            Err(fault) => Ok(Some(Reread::refused(alloc, &Error::Unwritable(*fault))?)),
        }
    }

    /// The reading of this text of the location.
    fn of_text(alloc: Global, url: &Url, own: BStr<'_>) -> Result<Reread, AllocError>
        requires { text url.now ≡ Ok (bstr_bytes own) }
        ensures { IfOk result (λ it. IfSome it.difference (ReportsReread url.now)) }
    {
        match parse(alloc, own) {
            Ok(other) => {
                let another = Reread::another(alloc, url, &other);
                drop(other);
                another
            }
            Err(error) => {
                let refused = Reread::refused(alloc, &error);
                drop(error);
                refused
            }
        }
    }

    /// The report of a text that is read as another location.
    fn another(alloc: Global, url: &Url, other: &Url) -> Result<Reread, AllocError>
        ensures { IfOk result (λ it. IfSome it.difference (ReportsField url.now other.now)) }
    {
        let difference = first_difference(alloc, url, other)?;
        Ok(Reread {
            words: words(alloc, url, &difference)?,
            difference,
            refusal: None,
        })
    }

    /// The report of a text that is refused with this error. An error means that memory was refused.
    fn refused(alloc: Global, error: &Error) -> Result<Reread, AllocError>
        ensures { IfOk result (λ it. IsNone it.difference) }
    {
        if matches!(error, Error::Memory) {
            return Err(AllocError);
        }
        Ok(Reread {
            words: format!(in alloc; "its own text is refused: {error}")?,
            difference: None,
            refusal: Some(Refusal::of(alloc, error)?),
        })
    }
}

/// The first public field that differs between the two.
fn first_difference(alloc: Global, url: &Url, other: &Url) -> Result<Option<Difference>, AllocError>
    ensures { IfOk result (λ difference. IfSome difference (ReportsField url.now other.now)) }
{
    if url.scheme != other.scheme {
        return Ok(Some(Difference {
            field: "scheme",
            here: Some(scheme_name(alloc, &url.scheme)?),
            instead: Some(scheme_name(alloc, &other.scheme)?),
        }));
    }
    if url.user() != other.user() {
        return part_difference(alloc, "user", url.user(), other.user());
    }
    if url.password() != other.password() {
        let (here, instead) = (hidden_password(url), hidden_password(other));
        return part_difference(alloc, "password", here, instead);
    }
    if url.host() != other.host() {
        return part_difference(alloc, "host", url.host(), other.host());
    }
    later_difference(alloc, url, other)
}

/// The first public field after the host that differs between the two.
fn later_difference(alloc: Global, url: &Url, other: &Url) -> Result<Option<Difference>, AllocError>
    ensures report { IfOk result (λ difference. IfSome difference (ReportsField url.now other.now)) }
    ensures none { IfOk result (λ difference. IsNone difference → HaveSameEnd url.now other.now) }
{
    if url.serialize_alternative_form != other.serialize_alternative_form {
        let (here, instead) = (flag_text(url), flag_text(other));
        return part_difference(
            alloc,
            "serialize_alternative_form",
            Some(here),
            Some(instead),
        );
    }
    if url.port != other.port {
        return Ok(Some(Difference {
            field: "port",
            here: port_text(alloc, url.port)?,
            instead: port_text(alloc, other.port)?,
        }));
    }
    if url.path.as_bytes() != other.path.as_bytes() {
        return Ok(Some(Difference {
            field: "path",
            here: Some(url.path.as_bstr().to_string(alloc)?),
            instead: Some(other.path.as_bstr().to_string(alloc)?),
        }));
    }
    Ok(None)
}

/// A field with both of its texts.
fn part_difference(
    alloc: Global,
    field: &'static str,
    here: Option<&str>,
    instead: Option<&str>,
) -> Result<Option<Difference>, AllocError>
    ensures some { IfOk result (λ difference. IsSome difference) }
    ensures named { IfOk result (λ difference. IfSome difference (λ found. found.field.now ≡ field.now)) }
    ensures here { IfOk result (λ difference. IfSome difference (λ found.
        option_map string_bytes found.here ≡ option_map (λ text. text.now) here.entry)) }
    ensures instead { IfOk result (λ difference. IfSome difference (λ found.
        option_map string_bytes found.instead ≡ option_map (λ text. text.now) instead.entry)) }
{
    Ok(Some(Difference {
        field,
        here: owned(alloc, here)?,
        instead: owned(alloc, instead)?,
    }))
}

/// A copy of a text.
fn owned(alloc: Global, text: Option<&str>) -> Result<Option<String>, AllocError>
    ensures { IfOk result (λ copy. option_map string_bytes copy ≡ option_map (λ it. it.now) text.entry) }
{
    match text {
        None => Ok(None),
        Some(text) => Ok(Some(String::from_str(alloc, text)?)),
    }
}

/// The text of the scheme, which for a remote helper follows the word `helper`.
fn scheme_name(alloc: Global, scheme: &Scheme) -> Result<String, AllocError>
    ensures { IfOk result (λ name. string_bytes name ≡ scheme_words (owned_scheme scheme.now)) }
{
    match scheme {
        Scheme::Ext | Scheme::Helper(_) => format!(in alloc; "helper {scheme}"),
        Scheme::File
        | Scheme::Git
        | Scheme::Ssh
        | Scheme::Http
        | Scheme::Https
        | Scheme::HelperUrl(_) => scheme.to_string(alloc),
    }
}

/// The port in decimal.
fn port_text(alloc: Global, port: Option<u16>) -> Result<Option<String>, AllocError>
    ensures { IfOk result (λ text. option_map string_bytes text ≡ option_map decimal port) }
{
    match port {
        None => Ok(None),
        Some(port) => Ok(Some(port.to_string(alloc)?)),
    }
}

/// The flag of the location as a word.
fn flag_text(url: &Url) -> &'static str
    ensures { result.now ≡ flag_word url.now.flag }
{
    if url.serialize_alternative_form {
        "true"
    } else {
        "false"
    }
}

/// The difference in words.
fn words(alloc: Global, url: &Url, difference: &Option<Difference>) -> Result<String, AllocError> {
    let Some(it) = difference else {
        return String::from_str(alloc, same_fields(url));
    };
    let mut words = String::from_str(alloc, "its own text is read with ")?;
    let written = push_change(&mut words, it.field, quoted(&it.here), quoted(&it.instead));
    let (words, ()) = both(words, written)?;
    Ok(words)
}

/// The reason why the location isn't settled, although its text is read as the same fields.
fn same_fields(url: &Url) -> &'static str {
    if has_mark(url.host()) {
        "its own text is read with the same fields, which isn't promised: the host has a colon or a bracket"
    } else if has_mark(url.user()) {
        "its own text is read with the same fields, which isn't promised: the user has a colon or a bracket"
    } else {
        "its own text is read with the same fields, which isn't promised"
    }
}

/// Whether a part is present and contains a colon or a bracket.
fn has_mark(part: Option<&str>) -> bool
    ensures { result ≡ some_passes (list_any is_mark) (option_map (λ it. it.now) part.entry) }
{
    match part {
        Some(part) => holds_mark(part.as_bytes()),
        None => false,
    }
}

/// Whether a text contains a colon or a bracket.
fn holds_mark(text: &[u8]) -> bool
    ensures { result ≡ list_any is_mark text.now }
{
    text.iter().any(|byte| is_mark(*byte))
}

/// Whether the byte is a colon or a bracket.
fn is_mark(byte: u8) -> bool
    ensures { result ≡ is_mark byte }
{
    matches!(byte, b':' | b'[' | b']')
}

/// The text in quotes.
fn quoted(text: &Option<String>) -> Option<Quoted<'_>>
    ensures { option_map (λ it. it.0.now) result ≡ option_map string_bytes text.now }
{
    match text {
        None => None,
        Some(text) => Some(Quoted(text.as_str().as_bytes())),
    }
}
