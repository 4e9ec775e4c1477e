//! Calls over a text: those that parse it, with or without a buffer, and those that print results for its lines.

use crate::halt::Halt;
use crate::order::{Order, unknown};
use crate::report::{Out, report_borrowed, report_member, report_name, report_owned};
use crate::shown::show;
use bstr::BStr;
use gix_url::credential::{TextPieces, decode_pieces};
use gix_url::lines::{run, status};
use gix_url::parse::parse;
use gix_url::{
    Error, ParseError, Refusal, Scheme, Url, UrlRef, credential, expand_path, ipv6, parts_of,
    transport,
};
use std::alloc::Global;
use std::io::Write;

/// Calls that parse a text, or judge it.
pub fn over_text(alloc: Global, order: Order<'_>, out: &mut Out) -> Result<(), Halt> {
    let bytes = order.bytes(alloc, "text")?;
    let outcome = if is_in_buffer(order.name()) {
        over_buffer(alloc, order, bytes.as_slice(), out)
    } else if is_of_git(order.name()) {
        read_as_git(alloc, order, bytes.as_slice(), out)
    } else if order.name() == "credential::decode_pieces" {
        over_pieces(alloc, order, bytes.as_slice(), out)
    } else {
        read(alloc, order, BStr::new(bytes.as_slice()), out)
    };
    drop(bytes);
    outcome
}

/// Whether a call parses into a buffer, or shows the refusal of such a call.
fn is_in_buffer(name: &str) -> bool {
    name == "UrlRef::parse_in"
        || name == "crate::parts_of"
        || name == "ParseError:fmt"
        || is_over_refusal(name)
}

/// Whether a call returns Git's reading of a text.
fn is_of_git(name: &str) -> bool {
    name == "transport::reading" || name == "credential::reading" || name == "Buffers::new"
}

/// Calls that return Git's readings of a text.
fn read_as_git(alloc: Global, order: Order<'_>, text: &[u8], out: &mut Out) -> Result<(), Halt> {
    match order.call() {
        "" => Ok(()),
        "credential::reading" => ask_for_credential(alloc, text, out),
        "Buffers::new" => report_owned(out, make_buffers(alloc)),
        _ => {
            let mut buffers = transport::Buffers::new(alloc);
            let reported = report_borrowed(out, &transport::reading(text, &mut buffers));
            drop(buffers);
            reported
        }
    }
}

/// Creates the buffers of both readings, and drops them.
fn make_buffers(alloc: Global) {
    drop(transport::Buffers::new(alloc));
    drop(credential::Buffers::new(alloc));
}

/// Reports the request that Git's credential code makes for a text.
fn ask_for_credential(alloc: Global, text: &[u8], out: &mut Out) -> Result<(), Halt> {
    let mut buffers = credential::Buffers::new(alloc);
    let reported = match credential::reading(text, &mut buffers) {
        Ok(request) => report_borrowed(out, &request),
        Err(_) => report_owned(out, Error::Memory),
    };
    drop(buffers);
    reported
}

/// Calls over an authority and the text after it.
fn over_pieces(
    alloc: Global,
    order: Order<'_>,
    authority: &[u8],
    out: &mut Out,
) -> Result<(), Halt> {
    let suffix = order.bytes(alloc, "suffix")?;
    let pieces = TextPieces {
        protocol: b"",
        authority,
        suffix: suffix.as_slice(),
    };
    let outcome = match order.call() {
        "credential::decode_pieces" => read_pieces(alloc, pieces, out),
        call => unknown(call),
    };
    drop(suffix);
    outcome
}

/// Reports the request that Git's credential code reads in pieces.
fn read_pieces(alloc: Global, pieces: TextPieces<'_>, out: &mut Out) -> Result<(), Halt> {
    let mut buffers = credential::Buffers::new(alloc);
    let reported = match decode_pieces(pieces, &mut buffers) {
        Ok(parts) => report_borrowed(out, &parts),
        Err(_) => report_owned(out, Error::Memory),
    };
    drop(buffers);
    reported
}

/// Whether a call is over the refusal of a text, or over its reason.
fn is_over_refusal(name: &str) -> bool {
    name == "Refusal:fmt" || name == "Refusal::fault" || name.starts_with("Reason:")
}

/// Calls over a text and a buffer: its size is the number in the order, or else the length of the text. The buffer is
/// filled with `#`: bytes that the library doesn't write aren't part of a location.
fn over_buffer(alloc: Global, order: Order<'_>, text: &[u8], out: &mut Out) -> Result<(), Halt> {
    let size = match order.number("buffer") {
        Some(size) => usize::try_from(size).unwrap_or(0),
        None => text.len(),
    };
    let mut buffer = vec![in alloc; b'#'; size]?;
    let outcome = read_in(order, text, &mut buffer, out);
    drop(buffer);
    outcome
}

/// Parses a text into a buffer, and reports the location or the error, or inspects the refusal.
fn read_in(order: Order<'_>, text: &[u8], buffer: &mut [u8], out: &mut Out) -> Result<(), Halt> {
    match order.call() {
        "" => Ok(()),
        "UrlRef::parse_in" => read_url_in(text, buffer, out),
        "crate::parts_of" => match parts_of(text) {
            Ok(parts) => report_borrowed(out, &parts),
            Err(refusal) => report_borrowed(out, &ParseError::Refused(refusal)),
        },
        "ParseError:fmt" => show_unread(order, UrlRef::parse_in(text, buffer), out),
        _ => match UrlRef::parse_in(text, buffer) {
            Err(ParseError::Refused(refusal)) => look_at_refusal(order, refusal, out),
            _ => Err(Halt::Unprepared),
        },
    }
}

/// Parses a text into a buffer, and reports the location or the error. With an error the buffer has to be unchanged.
fn read_url_in(text: &[u8], buffer: &mut [u8], out: &mut Out) -> Result<(), Halt> {
    let read = UrlRef::parse_in(text, buffer);
    let is_read = read.is_ok();
    report_owned(out, read)?;
    if is_read || buffer.iter().all(|&byte| byte == b'#') {
        Ok(())
    } else {
        Err(Halt::Changed)
    }
}

/// Shows why a text isn't a location.
fn show_unread(
    order: Order<'_>,
    outcome: Result<UrlRef<'_>, ParseError>,
    out: &mut Out,
) -> Result<(), Halt> {
    match outcome {
        Ok(_) => Err(Halt::Unprepared),
        Err(error) => show(out, order.style(), &error),
    }
}

/// Calls that inspect a refusal or its reason, or show one of them.
fn look_at_refusal(order: Order<'_>, refusal: Refusal, out: &mut Out) -> Result<(), Halt> {
    let reason = refusal.reason;
    match order.call() {
        "Refusal::fault" => report_borrowed(out, &refusal.fault()),
        "Refusal:fmt" => show(out, order.style(), &refusal),
        "Reason::kind" => report_borrowed(out, &reason.kind()),
        "Reason::name" => report_borrowed(out, &reason.name()),
        "Reason::words" => report_borrowed(out, &reason.words()),
        "Reason:fmt" => show(out, order.style(), &reason),
        call => unknown(call),
    }
}

/// Calls over bytes, or over the text that they encode.
fn read(alloc: Global, order: Order<'_>, bytes: BStr<'_>, out: &mut Out) -> Result<(), Halt> {
    let text = order.needed("text")?;
    match order.call() {
        "parse::parse" => report_owned(out, parse(alloc, bytes)),
        "Url::from_bytes" => report_owned(out, Url::from_bytes(alloc, bytes)),
        "Url::from_text" => report_owned(out, Url::from_text(alloc, text)),
        "Scheme::from_text" => report_owned(out, Scheme::from_text(alloc, text)),
        "ipv6::is_ipv6" => report_borrowed(out, &ipv6::is_ipv6(text)),
        "expand_path::parse" => report_owned(out, expand_path::parse(alloc, bytes)),
        call => unknown(call),
    }
}

/// Calls that print results for lines. The results are written into memory that is allocated before the call: a line
/// has at least one byte, and its result has at most 40 bytes more than three times the line.
pub fn over_lines(alloc: Global, order: Order<'_>, out: &mut Out) -> Result<(), Halt> {
    let bytes = order.bytes(alloc, "text")?;
    let mut answers = Vec::with_capacity(alloc, bytes.len().saturating_mul(44).saturating_add(44))?;
    if order.call().is_empty() {
        return Ok(());
    }
    let mut left = bytes.as_slice();
    let outcome = run(alloc, &mut left, &mut answers);
    let is_cut_short = outcome.is_ok() && !left.is_empty();
    report_name(out, "{", "outcome")?;
    report_borrowed(out, &outcome)?;
    report_name(out, ",", "status")?;
    report_borrowed(out, &status(&outcome))?;
    drop(outcome);
    report_name(out, ",", "out")?;
    report_borrowed(out, &BStr::new(answers.as_slice()))?;
    if is_cut_short {
        report_member(out, "left", &Some(BStr::new(left)))?;
    }
    Ok(out.write_all(b"}")?)
}
