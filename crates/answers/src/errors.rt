//! Errors as JSON, by their names and their fields; and errors built from that.

use crate::halt::Halt;
use crate::order::Order;
use crate::report::{Out, Report, report_member, report_name};
use bstr::{BStr, BString};
use gix_url::lines::RunError;
use gix_url::parse::{UrlKind, parse};
use gix_url::{Error, ParseError, Refusal, RefusalKind, UrlFault, WriteError, WriteFault};
use std::alloc::Global;
use std::io::{self, ErrorKind, Write};

impl Report for Error {
    fn report(&self, out: &mut Out) -> io::Result<()> {
        out.write_all(b"{\"error\":\"")?;
        report_fields(out, self)?;
        if let Some(refusal) = self.refusal() {
            report_place(out, ",", &refusal)?;
        }
        out.write_all(b"}")
    }
}

/// Reports the name of a parse error, with the form and the fault, and the text that it keeps.
fn report_fields(out: &mut Out, error: &Error) -> io::Result<()> {
    match error {
        Error::MissingPath { kind, input } => {
            write!(out, "MissingPath {kind:?}\"")?;
            report_kept(out, input)
        }
        Error::NotUtf8 { kind, input } => {
            write!(out, "NotUtf8 {kind:?}\"")?;
            report_kept(out, input)
        }
        Error::BadUrl { kind, fault, input } => {
            write!(out, "BadUrl {fault:?} {kind:?}\"")?;
            report_kept(out, input)
        }
        Error::TooLong { shown, total } => {
            out.write_all(b"TooLong\"")?;
            report_kept(out, shown)?;
            write!(out, ",\"total\":{total}")
        }
        _ => report_other(out, error),
    }
}

/// Reports the position and the reason of a parse error, after a `{` or a `,`.
fn report_place(out: &mut Out, before: &str, refusal: &Refusal) -> io::Result<()> {
    let (at, len, reason) = (refusal.at, refusal.len, refusal.reason.name());
    write!(
        out,
        "{before}\"at\":{at},\"len\":{len},\"reason\":\"{reason}\""
    )
}

/// Reports the bytes that an error keeps.
fn report_kept(out: &mut Out, bytes: &BString) -> io::Result<()> {
    report_member(out, "kept", &Some(bytes.as_bstr()))
}

/// Reports the name of any other error, and the name of the helper or the user.
fn report_other(out: &mut Out, error: &Error) -> io::Result<()> {
    match error {
        Error::HelperName { name } => {
            out.write_all(b"HelperName\"")?;
            report_kept(out, name)
        }
        Error::NoHome(user) => {
            out.write_all(b"NoHome\"")?;
            report_name(out, ",", "user")?;
            user.report(out)
        }
        Error::Unwritable(fault) => write!(out, "Unwritable {fault:?}\""),
        _ => write!(out, "{error:?}\""),
    }
}

impl Report for ParseError {
    fn report(&self, out: &mut Out) -> io::Result<()> {
        match self {
            ParseError::NoRoom => out.write_all(b"{\"error\":\"NoRoom\"}"),
            ParseError::Refused(refusal) => {
                out.write_all(b"{\"error\":\"")?;
                report_refusal(out, refusal)?;
                report_place(out, "\",", refusal)?;
                out.write_all(b"}")
            }
        }
    }
}

/// Reports the name of the error for a refusal, with the fault and the form.
fn report_refusal(out: &mut Out, refusal: &Refusal) -> io::Result<()> {
    let form = refusal.form;
    match refusal.reason.kind() {
        RefusalKind::EmptyLocal => out.write_all(b"EmptyLocal"),
        RefusalKind::MissingPath => write!(out, "MissingPath {form:?}"),
        RefusalKind::NotUtf8 => write!(out, "NotUtf8 {form:?}"),
        RefusalKind::TooLong => out.write_all(b"TooLong"),
        RefusalKind::BadUrl(fault) => write!(out, "BadUrl {fault:?} {form:?}"),
    }
}

impl Report for Refusal {
    fn report(&self, out: &mut Out) -> io::Result<()> {
        write!(out, "{{\"form\":\"{:?}\"", self.form)?;
        report_place(out, ",", self)?;
        out.write_all(b"}")
    }
}

impl Report for RefusalKind {
    fn report(&self, out: &mut Out) -> io::Result<()> {
        match self {
            RefusalKind::BadUrl(fault) => write!(out, "\"BadUrl {fault:?}\""),
            _ => write!(out, "\"{self:?}\""),
        }
    }
}

impl Report for UrlFault {
    fn report(&self, out: &mut Out) -> io::Result<()> {
        write!(out, "\"{self:?}\"")
    }
}

impl Report for WriteFault {
    fn report(&self, out: &mut Out) -> io::Result<()> {
        write!(out, "{{\"error\":\"Unwritable {self:?}\"}}")
    }
}

impl Report for RunError {
    fn report(&self, out: &mut Out) -> io::Result<()> {
        let name = match self {
            RunError::Memory => "Memory",
            RunError::Read(_) => "Read",
            RunError::Write(_) => "Write",
        };
        write!(out, "{{\"error\":\"{name}\"}}")
    }
}

impl Report for serde_json::Error {
    fn report(&self, out: &mut Out) -> io::Result<()> {
        if self.is_memory() {
            return out.write_all(b"{\"error\":\"Memory\"}");
        }
        write!(out, "{{\"error\":\"{self}\",\"column\":{}}}", self.column())
    }
}

/// The form with this name.
pub fn kind(name: &str) -> Result<UrlKind, Halt> {
    match name {
        "Url" => Ok(UrlKind::Url),
        "Scp" => Ok(UrlKind::Scp),
        "Local" => Ok(UrlKind::Local),
        _ => Err(Halt::Unprepared),
    }
}

/// The fault of a URL with this name.
pub fn fault(name: &str) -> Result<UrlFault, Halt> {
    match name {
        "NoScheme" => Ok(UrlFault::NoScheme),
        "BadPort" => Ok(UrlFault::BadPort),
        "BadCharacter" => Ok(UrlFault::BadCharacter),
        "HostRequired" => Ok(UrlFault::HostRequired),
        _ => Err(Halt::Unprepared),
    }
}

/// The write fault with this name.
pub fn write_fault(name: &str) -> Result<WriteFault, Halt> {
    match name {
        "HelperName" => Ok(WriteFault::HelperName),
        "HelperParts" => Ok(WriteFault::HelperParts),
        "RelativeSsh" => Ok(WriteFault::RelativeSsh),
        "UserWithoutHost" => Ok(WriteFault::UserWithoutHost),
        _ => Err(Halt::Unprepared),
    }
}

/// The parse error of a text, or the error with this name and these fields.
pub fn error(alloc: Global, order: Order<'_>) -> Result<Error, Halt> {
    match order.object("error") {
        Some(given) => error_of(alloc, given),
        None => match parse(alloc, BStr::new(order.bytes(alloc, "text")?.as_slice())) {
            Err(error) => Ok(error),
            Ok(url) => {
                drop(url);
                Err(Halt::Unprepared)
            }
        },
    }
}

/// The error with this name and these fields.
fn error_of(alloc: Global, given: Order<'_>) -> Result<Error, Halt> {
    let kept = BString::new(given.bytes(alloc, "kept")?);
    let (name, rest) = given
        .needed("error")?
        .split_once(' ')
        .unwrap_or((given.needed("error")?, ""));
    match name {
        "MissingPath" => Ok(Error::MissingPath {
            kind: kind(rest)?,
            input: kept,
        }),
        "NotUtf8" => Ok(Error::NotUtf8 {
            kind: kind(rest)?,
            input: kept,
        }),
        "TooLong" => Ok(Error::TooLong {
            shown: kept,
            total: 2016,
        }),
        "HelperName" => Ok(Error::HelperName { name: kept }),
        "BadUrl" => bad_url(given, rest, kept),
        "NoHome" => no_home(alloc, given),
        _ => bare_error(name, rest),
    }
}

/// The error of a form with a fault.
fn bad_url(given: Order<'_>, names: &str, input: BString) -> Result<Error, Halt> {
    let Some((fault_name, kind_name)) = names.split_once(' ') else {
        return Err(Halt::Unprepared);
    };
    Ok(Error::BadUrl {
        kind: kind(kind_name)?,
        fault: fault(fault_name)?,
        input,
    })
}

/// The error for a user without a known home folder.
fn no_home(alloc: Global, given: Order<'_>) -> Result<Error, Halt> {
    match crate::build::user(alloc, given, "user")? {
        Some(user) => Ok(Error::NoHome(user)),
        None => Err(Halt::Unprepared),
    }
}

/// The error with this name, of those that keep no text.
fn bare_error(name: &str, rest: &str) -> Result<Error, Halt> {
    match name {
        "Memory" => Ok(Error::Memory),
        "EmptyLocal" => Ok(Error::EmptyLocal),
        "Unwritable" => Ok(Error::Unwritable(write_fault(rest)?)),
        "PathNotUtf8" => Ok(Error::PathNotUtf8),
        "Unresolved" => Ok(Error::Unresolved),
        _ => Err(Halt::Unprepared),
    }
}

/// The error of a stream, with the kind and the words in an order.
fn stream_error(order: Order<'_>) -> io::Error {
    let kind = match order.text("kind") {
        Some("BrokenPipe") => ErrorKind::BrokenPipe,
        Some("StorageFull") => ErrorKind::StorageFull,
        _ => ErrorKind::Other,
    };
    match order.text("cause") {
        Some("nobody reads") => io::Error::new(kind, "nobody reads"),
        Some("no space is left") => io::Error::new(kind, "no space is left"),
        _ => io::Error::from(kind),
    }
}

/// The error of a run in an order.
pub fn run_error(order: Order<'_>) -> Result<RunError, Halt> {
    match order.needed("error")? {
        "Memory" => Ok(RunError::Memory),
        "Read" => Ok(RunError::Read(stream_error(order))),
        "Write" => Ok(RunError::Write(stream_error(order))),
        _ => Err(Halt::Unprepared),
    }
}

/// The write error in an order: a fault, or the error of a stream.
pub fn write_error(order: Order<'_>) -> Result<WriteError, Halt> {
    match order.text("fault") {
        Some(name) => Ok(WriteError::Fault(write_fault(name)?)),
        None => Ok(WriteError::Io(stream_error(order))),
    }
}

/// The outcome of a run in an order.
pub fn outcome(order: Order<'_>) -> Result<Result<bool, RunError>, Halt> {
    if order.has("error") {
        return Ok(Err(run_error(order)?));
    }
    Ok(Ok(order.is("settled")))
}
