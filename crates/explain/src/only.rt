//! One part of each location on a line of its own, for scripts.
//!
//! A password can't be requested. A part is taken from the line as it is shown. `tests/programs/test_golden.py`
//! tests the output.

use bstr::ByteSlice;
use explain_report::memory::no_memory;
use explain_report::text::line::write_shown;
use explain_report::text::marked::MarkedLine;
use explain_report::text::seen::Seen;
use gix_url::{PathComponents, Scheme, Url};
use std::alloc::{AllocError, Global};
use std::fmt::Write;

/// A part of a location.
#[derive(Clone, Copy)]
pub enum Part {
    Scheme,
    User,
    Host,
    Port,
    Path,
    Query,
    Fragment,
    Text,
}

impl Part {
    /// The names of the parts, in declared order.
    pub const NAMES: [&'static str; 8] = [
        "scheme", "user", "host", "port", "path", "query", "fragment", "text",
    ];

    /// The part with this name.
    pub fn named(name: &str) -> Option<Part> {
        match name {
            "scheme" => Some(Part::Scheme),
            "user" => Some(Part::User),
            "host" => Some(Part::Host),
            "port" => Some(Part::Port),
            "path" => Some(Part::Path),
            "query" => Some(Part::Query),
            "fragment" => Some(Part::Fragment),
            "text" => Some(Part::Text),
            _ => None,
        }
    }
}

/// A line with a part of the location that a text is parsed as. The part is shown as in the report about the text, and
/// is empty if it is missing or isn't shown. Control characters, backslashes and bytes that are not UTF-8 are escaped,
/// so the result is one line.
pub fn line(alloc: Global, text: &[u8], url: &Url, part: Part) -> Result<String, AllocError> {
    let line = MarkedLine::of(text);
    let seen = Seen::of(alloc, line, url)?;
    let answer = match seen.shown(line, url) {
        Some((_, shown)) => line_of(alloc, shown, part),
        None => String::from_str(alloc, "\n"),
    };
    drop(seen);
    answer
}

/// The line with a part of a location.
fn line_of(alloc: Global, url: &Url, part: Part) -> Result<String, AllocError> {
    let mut out = String::new(alloc);
    match part {
        Part::Scheme => write_shown(&mut out, url.scheme.as_str().as_bytes())?,
        Part::User => text(&mut out, url.user())?,
        Part::Host => text(&mut out, url.host())?,
        Part::Port => port(&mut out, url.port_or_default())?,
        Part::Path => path(alloc, &mut out, url)?,
        Part::Query => bytes(&mut out, query(url))?,
        Part::Fragment => fragment(alloc, &mut out, url)?,
        Part::Text => own_text(alloc, &mut out, url)?,
    }
    out.push('\n')?;
    Ok(out)
}

/// Appends a text, if there is one.
fn text(out: &mut String, text: Option<&str>) -> Result<(), AllocError> {
    bytes(out, text.map(str::as_bytes))
}

/// Appends bytes, if there are any.
fn bytes(out: &mut String, bytes: Option<&[u8]>) -> Result<(), AllocError> {
    match bytes {
        None => Ok(()),
        Some(bytes) => write_shown(out, bytes),
    }
}

/// Appends a port, if there is one.
fn port(out: &mut String, port: Option<u16>) -> Result<(), AllocError> {
    match port {
        None => Ok(()),
        Some(port) => write!(out, "{port}"),
    }
}

/// Appends the path without query and fragment.
fn path(alloc: Global, out: &mut String, url: &Url) -> Result<(), AllocError> {
    let parts = components(alloc, url)?;
    let path = write_shown(out, parts.path.as_bytes());
    drop(parts);
    path
}

/// Appends the fragment, if there is one.
fn fragment(alloc: Global, out: &mut String, url: &Url) -> Result<(), AllocError> {
    let parts = components(alloc, url)?;
    let fragment = bytes(out, parts.fragment.map(|it| it.as_bytes()));
    drop(parts);
    fragment
}

/// The path, the query and the fragment. The call fails only if memory is refused.
fn components(alloc: Global, url: &Url) -> Result<PathComponents<'_>, AllocError> {
    url.path_query_fragment(alloc).map_err(no_memory)
}

/// The query as it is written, with its escapes.
fn query(url: &Url) -> Option<&[u8]> {
    if !matches!(&url.scheme, Scheme::Http | Scheme::Https) {
        return None;
    }
    let spelled = url.original_path().as_bytes();
    let front = spelled.split_once_str(b"#").map_or(spelled, |it| it.0);
    front.split_once_str(b"?").map(|it| it.1)
}

/// Appends the text of the location with its password hidden, if it has a text.
fn own_text(alloc: Global, out: &mut String, url: &Url) -> Result<(), AllocError> {
    if url.text_len().is_err() {
        return Ok(());
    }
    let text = url.to_string(alloc)?;
    let shown = write_shown(out, text.as_str().as_bytes());
    drop(text);
    shown
}
