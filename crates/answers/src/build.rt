//! Builds the inputs of calls from orders: locations, records, schemes and users.
//!
//! A location is a text, or an object of its parts, like a record: `scheme`, `user`, `password`, `host`, `port`,
//! `alternative`, `path` and `spelling`. The name of a scheme follows it, as in `Helper a`.

use crate::bytes::decode;
use crate::halt::Halt;
use crate::order::Order;
use bstr::{BStr, BString};
use gix_url::expand_path::ForUser;
use gix_url::parse::parse;
use gix_url::stored::StoredUrl;
use gix_url::{ArgumentSafety, Error, Scheme, Url};
use std::alloc::Global;
use std::mem;

/// The location of a member: its text, parsed, or the parts as they are.
pub fn url(alloc: Global, order: Order<'_>, name: &str) -> Result<Url, Halt> {
    match order.object(name) {
        Some(parts) => url_of_parts(alloc, parts),
        None => {
            let text = order.bytes(alloc, name)?;
            parse(alloc, BStr::new(text.as_slice())).map_err(unprepared)
        }
    }
}

/// The location with these parts. Its path is stored last, because a record whose spelling equals its path has the
/// older format.
fn url_of_parts(alloc: Global, parts: Order<'_>) -> Result<Url, Halt> {
    let mut record = record(alloc, parts)?;
    let path = mem::replace(&mut record.path, Vec::new(alloc));
    let mut url = Url::from_stored(alloc, record).map_err(unprepared)?;
    url.path = BString::new(path);
    Ok(url)
}

/// The halt for an input that can't be built, whatever the error.
pub fn unprepared(error: Error) -> Halt {
    drop(error);
    Halt::Unprepared
}

/// The record of these parts.
pub fn record(alloc: Global, parts: Order<'_>) -> Result<StoredUrl, Halt> {
    let mut record = StoredUrl {
        scheme: scheme(alloc, parts.needed("scheme")?)?,
        user: None,
        password: None,
        host: None,
        serialize_alternative_form: parts.is("alternative"),
        port: port(parts),
        path: Vec::new(alloc),
        path_with_percent_escapes: None,
    };
    match fill(alloc, &mut record, parts) {
        Ok(()) => Ok(record),
        Err(halt) => {
            drop(record);
            Err(halt)
        }
    }
}

/// The port of the parts, if they have one.
fn port(parts: Order<'_>) -> Option<u16> {
    parts
        .number("port")
        .and_then(|number| u16::try_from(number).ok())
}

/// Stores the parts that allocate in a record.
fn fill(alloc: Global, record: &mut StoredUrl, parts: Order<'_>) -> Result<(), Halt> {
    record.user = parts.owned(alloc, "user")?;
    record.password = parts.owned(alloc, "password")?;
    record.host = parts.owned(alloc, "host")?;
    record.path = parts.bytes(alloc, "path")?;
    if parts.has("spelling") {
        record.path_with_percent_escapes = Some(parts.bytes(alloc, "spelling")?);
    }
    Ok(())
}

/// The scheme of a text.
pub fn scheme(alloc: Global, given: &str) -> Result<Scheme, Halt> {
    match given {
        "File" => Ok(Scheme::File),
        "Git" => Ok(Scheme::Git),
        "Ssh" => Ok(Scheme::Ssh),
        "Http" => Ok(Scheme::Http),
        "Https" => Ok(Scheme::Https),
        "Ext" => Ok(Scheme::Ext),
        _ => named_scheme(alloc, given),
    }
}

/// The scheme of a text with a name.
fn named_scheme(alloc: Global, given: &str) -> Result<Scheme, Halt> {
    match given.split_once(' ') {
        Some(("Helper", name)) => Ok(Scheme::Helper(String::from_str(alloc, name)?)),
        Some(("HelperUrl", name)) => Ok(Scheme::HelperUrl(String::from_str(alloc, name)?)),
        _ => Err(Halt::Unprepared),
    }
}

/// The user of a member: `~` is the current one, `~bob` another, and `{"name": ""}` one with an empty name.
pub fn user(alloc: Global, order: Order<'_>, name: &str) -> Result<Option<ForUser>, Halt> {
    if let Some(given) = order.object(name) {
        return Ok(Some(ForUser::Name(BString::new(given.bytes(alloc, "name")?))));
    }
    match order.text(name).and_then(|given| given.strip_prefix('~')) {
        None => Ok(None),
        Some("") => Ok(Some(ForUser::Current)),
        Some(name) => Ok(Some(ForUser::Name(BString::new(decode(alloc, name)?)))),
    }
}

/// The judgement of a part in a member, such as `{"usable": "h"}`; `Absent` if the order has no such member.
pub fn judgement<'a>(order: Order<'a>, name: &str) -> ArgumentSafety<'a> {
    let Some(given) = order.object(name) else {
        return ArgumentSafety::Absent;
    };
    match given.text("usable") {
        Some(text) => ArgumentSafety::Usable(text),
        None => ArgumentSafety::Dangerous(given.text("dangerous").unwrap_or("")),
    }
}
