//! Results with the library's own types as JSON: locations and records by their parts, schemes, users, the components
//! of a path, and judgements of parts as arguments.

use crate::halt::Halt;
use crate::report::{Out, Report, report_member, report_name};
use bstr::BStr;
use gix_url::expand_path::ForUser;
use gix_url::stored::StoredUrl;
use gix_url::{ArgumentSafety, PathComponents, QueryText, Scheme, SchemeRef, Url, UrlRef};
use std::io::{self, Write};

impl Report for Scheme {
    fn report(&self, out: &mut Out) -> io::Result<()> {
        self.as_ref().report(out)
    }
}

impl Report for SchemeRef<'_> {
    fn report(&self, out: &mut Out) -> io::Result<()> {
        match self {
            SchemeRef::File => out.write_all(b"\"File\""),
            SchemeRef::Git => out.write_all(b"\"Git\""),
            SchemeRef::Ssh => out.write_all(b"\"Ssh\""),
            SchemeRef::Http => out.write_all(b"\"Http\""),
            SchemeRef::Https => out.write_all(b"\"Https\""),
            SchemeRef::Ext => out.write_all(b"\"Ext\""),
            SchemeRef::Helper(name) => report_named(out, "Helper ", name.as_bytes()),
            SchemeRef::HelperUrl(name) => report_named(out, "HelperUrl ", name.as_bytes()),
        }
    }
}

/// Reports a word and a name after it, as one text.
fn report_named(out: &mut Out, word: &str, name: &[u8]) -> io::Result<()> {
    write!(out, "\"{word}")?;
    crate::bytes::write_inside(out, name)?;
    out.write_all(b"\"")
}

/// Reports the parts of a location or a record, except its path and its spelling: the texts are user, password and
/// host.
fn report_front(
    out: &mut Out,
    scheme: SchemeRef<'_>,
    texts: [Option<&str>; 3],
    port: Option<u16>,
    alternative: bool,
) -> io::Result<()> {
    let [user, password, host] = texts;
    report_name(out, "{", "scheme")?;
    scheme.report(out)?;
    report_member(out, "user", &user)?;
    report_member(out, "password", &password)?;
    report_member(out, "host", &host)?;
    report_member(out, "port", &port)?;
    report_member(out, "alternative", &alternative.then_some(true))
}

/// Reports a path, and its spelling if it has one, and closes the object of the parts.
fn report_path(out: &mut Out, path: &[u8], spelling: Option<&[u8]>) -> io::Result<()> {
    report_member(out, "path", &Some(BStr::new(path)))?;
    if let Some(spelling) = spelling {
        report_member(out, "spelling", &Some(BStr::new(spelling)))?;
    }
    out.write_all(b"}")
}

impl Report for Url {
    fn report(&self, out: &mut Out) -> io::Result<()> {
        let texts = [&self.user, &self.password, &self.host].map(Option::as_deref);
        report_front(
            out,
            self.scheme.as_ref(),
            texts,
            self.port,
            self.serialize_alternative_form,
        )?;
        let (path, spelling) = (self.path.as_bytes(), self.original_path().as_bytes());
        report_path(
            out,
            path,
            if spelling == path {
                None
            } else {
                Some(spelling)
            },
        )
    }
}

impl Report for UrlRef<'_> {
    fn report(&self, out: &mut Out) -> io::Result<()> {
        let texts = [self.user, self.password, self.host];
        report_front(
            out,
            self.scheme,
            texts,
            self.port,
            self.serialize_alternative_form,
        )?;
        report_path(out, self.path, self.spelling)
    }
}

impl Report for StoredUrl {
    fn report(&self, out: &mut Out) -> io::Result<()> {
        let texts = [&self.user, &self.password, &self.host].map(Option::as_deref);
        report_front(
            out,
            self.scheme.as_ref(),
            texts,
            self.port,
            self.serialize_alternative_form,
        )?;
        report_path(
            out,
            self.path.as_slice(),
            self.path_with_percent_escapes.as_deref(),
        )
    }
}

impl Report for ForUser {
    fn report(&self, out: &mut Out) -> io::Result<()> {
        match self {
            ForUser::Current => out.write_all(b"\"~\""),
            ForUser::Name(name) => report_named(out, "~", name.as_bytes()),
        }
    }
}

impl Report for ArgumentSafety<'_> {
    fn report(&self, out: &mut Out) -> io::Result<()> {
        match self {
            ArgumentSafety::Absent => out.write_all(b"null"),
            ArgumentSafety::Usable(text) => report_judged(out, "usable", text),
            ArgumentSafety::Dangerous(text) => report_judged(out, "dangerous", text),
        }
    }
}

/// Reports a text as judged for an argument.
fn report_judged(out: &mut Out, word: &str, text: &str) -> io::Result<()> {
    report_name(out, "{", word)?;
    text.report(out)?;
    out.write_all(b"}")
}

impl Report for QueryText<'_> {
    fn report(&self, out: &mut Out) -> io::Result<()> {
        match self {
            QueryText::Borrowed(_) => self.as_bstr().report(out),
            QueryText::Owned(_) => {
                report_name(out, "{", "owned")?;
                self.as_bstr().report(out)?;
                out.write_all(b"}")
            }
        }
    }
}

impl Report for PathComponents<'_> {
    fn report(&self, out: &mut Out) -> io::Result<()> {
        report_name(out, "{", "path")?;
        self.path.report(out)?;
        if let Some(fields) = &self.query {
            report_fields(out, fields.as_slice())?;
        }
        report_member(out, "fragment", &self.fragment)?;
        out.write_all(b"}")
    }
}

/// Reports the names and the values of a query.
fn report_fields(out: &mut Out, fields: &[(QueryText<'_>, QueryText<'_>)]) -> io::Result<()> {
    report_name(out, ",", "query")?;
    let mut before = "[";
    for (name, value) in fields {
        write!(out, "{before}")?;
        crate::report::report_pair(out, name, value)?;
        before = ",";
    }
    out.write_all(if fields.is_empty() { b"[]" } else { b"]" })
}

/// The first name of a query.
pub fn first_name<'a, 'b>(parts: &'b PathComponents<'a>) -> Result<&'b QueryText<'a>, Halt> {
    match &parts.query {
        Some(fields) => match fields.first() {
            Some((name, _)) => Ok(name),
            None => Err(Halt::Unprepared),
        },
        None => Err(Halt::Unprepared),
    }
}
