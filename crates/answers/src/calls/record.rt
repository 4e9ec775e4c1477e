//! Calls over a record of fields, and over its JSON.

use crate::build;
use crate::halt::Halt;
use crate::order::{Order, unknown};
use crate::report::{Out, report_owned};
use crate::shown::show_debug;
use bstr::BString;
use gix_url::stored::StoredUrl;
use gix_url::testing::TestUrlExtension;
use gix_url::{Error, Url};
use std::alloc::Global;

/// Calls over a record of parts.
pub fn over_record(alloc: Global, order: Order<'_>, out: &mut Out) -> Result<(), Halt> {
    let Some(parts) = order.object("record") else {
        return Err(Halt::Unprepared);
    };
    let record = build::record(alloc, parts)?;
    match order.call() {
        "Url::from_stored" => report_owned(out, Url::from_stored(alloc, record)),
        "Url::from_parts" => report_owned(out, from_parts(alloc, record)),
        "Url::from_parts_unchecked" => report_owned(out, from_parts_unchecked(record)),
        "StoredUrl:to_json" => to_json(alloc, record, out),
        call => {
            drop(record);
            unknown(call)
        }
    }
}

/// Reports a record as a JSON text.
fn to_json(alloc: Global, record: StoredUrl, out: &mut Out) -> Result<(), Halt> {
    let json = serde_json::to_string(alloc, &record);
    drop(record);
    report_owned(out, json)
}

/// The result of building a location from the parts of a record, without its spelling.
fn from_parts(alloc: Global, record: StoredUrl) -> Result<Url, Error> {
    Url::from_parts(
        alloc,
        record.scheme,
        record.user,
        record.password,
        record.host,
        record.port,
        BString::new(record.path),
        record.serialize_alternative_form,
    )
}

/// The location with the parts of a record, without its spelling.
fn from_parts_unchecked(record: StoredUrl) -> Url {
    <Url as TestUrlExtension>::from_parts_unchecked(
        record.scheme,
        record.user,
        record.password,
        record.host,
        record.port,
        BString::new(record.path),
        record.serialize_alternative_form,
    )
}

/// Calls over the JSON of a record.
pub fn over_json(alloc: Global, order: Order<'_>, out: &mut Out) -> Result<(), Halt> {
    let json = order.needed("json")?;
    if order.name() == "StoredUrl:Debug" {
        return show_record(alloc, order, json, out);
    }
    match order.call() {
        "StoredUrl:from_json" => report_owned(out, of_json(alloc, json)),
        "StoredUrl:again" => again(alloc, json, out),
        call => unknown(call),
    }
}

/// The record in a JSON text.
fn of_json(alloc: Global, json: &str) -> Result<StoredUrl, serde_json::Error> {
    serde_json::from_str(alloc, json)
}

/// Shows the record in a JSON text.
fn show_record(alloc: Global, order: Order<'_>, json: &str, out: &mut Out) -> Result<(), Halt> {
    let Ok(record) = of_json(alloc, json) else {
        return Err(Halt::Unprepared);
    };
    let shown = match order.call() {
        "" => Ok(()),
        _ => show_debug(out, &record),
    };
    drop(record);
    shown
}

/// Restores the location in a JSON text, and reports the JSON that is stored for it.
fn again(alloc: Global, json: &str, out: &mut Out) -> Result<(), Halt> {
    match of_json(alloc, json) {
        Err(error) => report_owned(out, Err::<(), serde_json::Error>(error)),
        Ok(record) => match Url::from_stored(alloc, record) {
            Err(error) => report_owned(out, error),
            Ok(url) => store(alloc, url, out),
        },
    }
}

/// Reports the JSON that is stored for a location.
fn store(alloc: Global, url: Url, out: &mut Out) -> Result<(), Halt> {
    let stored = url.to_stored(alloc);
    drop(url);
    match stored {
        Err(error) => report_owned(out, error),
        Ok(record) => to_json(alloc, record, out),
    }
}
