//! Calls that change or consume a location.

use crate::halt::Halt;
use crate::order::{Order, unknown};
use crate::report::{Out, report_owned};
use bstr::BString;
use gix_url::Url;
use std::alloc::Global;

/// The member that is a call's second input, if the call changes or consumes a location.
pub fn given_of(name: &str) -> Option<&'static str> {
    match name {
        "Url::set_user" => Some("user"),
        "Url::set_password" => Some("password"),
        "Url::canonicalize" | "Url::canonicalized" => Some("answer"),
        "Url::with_request_alternate_form" => Some("alternative"),
        _ => None,
    }
}

/// Calls that change or consume a location: the result of the call, and the location after it.
pub fn change(
    alloc: Global,
    order: Order<'_>,
    mut url: Url,
    name: &str,
    out: &mut Out,
) -> Result<(), Halt> {
    let text = order.owned(alloc, name)?;
    let path = BString::from_slice(alloc, url.path.as_bytes())?;
    match order.call() {
        "Url::set_user" => report_owned(out, (url.set_user(text), url)),
        "Url::set_password" => report_owned(out, (url.set_password(text), url)),
        "Url::with_request_alternate_form" => {
            report_owned(out, url.with_request_alternate_form(order.is(name)))
        }
        "Url::canonicalize" => canonicalize(url, &path, text, out),
        "Url::canonicalized" => canonicalized(alloc, url, &path, text, out),
        call => {
            drop(url);
            unknown(call)
        }
    }
}

/// The number to add when a path is requested: 1 for the path of the location, and 100 for another.
fn times(path: &BString, asked: &str) -> u8 {
    if path.as_bytes() == asked.as_bytes() {
        1
    } else {
        100
    }
}

/// Canonicalizes a location in place, and reports how often its path was requested.
fn canonicalize(
    mut url: Url,
    path: &BString,
    answer: Option<String>,
    out: &mut Out,
) -> Result<(), Halt> {
    let mut asked = 0u8;
    let outcome = url.canonicalize(|one| {
        asked = asked.saturating_add(times(path, one));
        answer
    });
    report_owned(out, ((outcome, asked), url))
}

/// Canonicalizes a copy of a location, and reports how often its path was requested.
fn canonicalized(
    alloc: Global,
    url: Url,
    path: &BString,
    answer: Option<String>,
    out: &mut Out,
) -> Result<(), Halt> {
    let mut asked = 0u8;
    let outcome = url.canonicalized(alloc, |one| {
        asked = asked.saturating_add(times(path, one));
        answer
    });
    report_owned(out, ((outcome, asked), url))
}
