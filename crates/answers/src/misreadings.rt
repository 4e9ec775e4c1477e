//! Calls of `git_audit` over the hosts that other programs find in a text.
//!
//! `group` is the name of a group of readers, `url` a location, and `text` the text that is read if it differs.

use crate::build;
use crate::halt::Halt;
use crate::order::{Order, unknown};
use crate::report::{Out, report_borrowed};
use bstr::BStr;
use git_audit::misreading::{Group, is_misread, other_host};
use gix_url::UrlRef;
use std::alloc::Global;

/// Whether a call is over misreadings, by the module or the type in its name.
pub fn has(name: &str) -> bool {
    name.starts_with("misreading::") || name.starts_with("Group::")
}

/// Makes the call of an order.
pub fn make(alloc: Global, order: Order<'_>, out: &mut Out) -> Result<(), Halt> {
    let text = order.bytes(alloc, if order.has("text") { "text" } else { "url" })?;
    let outcome = if order.has("url") {
        over_url(alloc, order, text.as_slice(), out)
    } else {
        over_group(order, group_of(order)?, text.as_slice(), out)
    };
    drop(text);
    outcome
}

/// Reports the host that is found in a text and isn't the location's.
fn over_url(alloc: Global, order: Order<'_>, text: &[u8], out: &mut Out) -> Result<(), Halt> {
    let url = build::url(alloc, order, "url")?;
    let outcome = over_location(order, text, &url.as_ref(), out);
    drop(url);
    outcome
}

/// Reports the host that is found in a text and isn't that of a borrowed location.
fn over_location(
    order: Order<'_>,
    text: &[u8],
    url: &UrlRef<'_>,
    out: &mut Out,
) -> Result<(), Halt> {
    match order.call() {
        "misreading::is_misread" => report_borrowed(out, &is_misread(text, url)),
        "misreading::other_host" => report_host(out, other_host(text, url, group_of(order)?)),
        call => unknown(call),
    }
}

/// Reports the name of a group, its words, or the host that it finds.
fn over_group(order: Order<'_>, group: Group, text: &[u8], out: &mut Out) -> Result<(), Halt> {
    match order.call() {
        "Group::name" => report_borrowed(out, &group.name()),
        "Group::words" => report_borrowed(out, &group.words()),
        "Group::host_in" => report_host(out, group.host_in(text)),
        call => unknown(call),
    }
}

/// Reports a host, if there is one.
fn report_host(out: &mut Out, host: Option<&[u8]>) -> Result<(), Halt> {
    report_borrowed(out, &host.map(|host| BStr::new(host)))
}

/// The group of an order.
fn group_of(order: Order<'_>) -> Result<Group, Halt> {
    match order.needed("group")? {
        "Urls" => Ok(Group::Urls),
        "UrlStandard" => Ok(Group::UrlStandard),
        "MadeUrls" => Ok(Group::MadeUrls),
        "FirstColon" => Ok(Group::FirstColon),
        "FirstAt" => Ok(Group::FirstAt),
        "DigitsArePort" => Ok(Group::DigitsArePort),
        "FourNumbers" => Ok(Group::FourNumbers),
        _ => Err(Halt::Unprepared),
    }
}
