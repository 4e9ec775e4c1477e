//! Calls over a location, owned or borrowed: those that inspect it, copy it, write it or split its components.

use crate::build;
use crate::calls::change::{change, given_of};
use crate::calls::compare::{alike, compare, hash_of};
use crate::halt::Halt;
use crate::order::{Order, unknown};
use crate::parts::first_name;
use crate::report::{Out, Taking, report_borrowed, report_member, report_name, report_owned};
use crate::shown::{show, show_display};
use bstr::{BStr, BString};
use gix_url::unambiguous::{is_unambiguous, unmet_condition};
use gix_url::{
    Error, PathComponents, Url, UrlRef, WriteError, agrees_with_git, laws, unmet_web_condition,
};
use std::alloc::Global;
use std::io::Write;

/// Calls that inspect a location or copy it, and leave it unchanged. Some of them also consume what they build from it.
pub fn over_url(alloc: Global, order: Order<'_>, out: &mut Out) -> Result<(), Halt> {
    let url = build::url(alloc, order, "url")?;
    match given_of(order.name()) {
        Some(name) => change(alloc, order, url, name, out),
        None => {
            let before = hash_of(&url);
            let outcome = look_or_copy(alloc, order, &url, out);
            let is_changed = hash_of(&url) != before;
            drop(url);
            if is_changed {
                Err(Halt::Changed)
            } else {
                outcome
            }
        }
    }
}

/// Calls over a location, or over two locations.
fn look_or_copy(alloc: Global, order: Order<'_>, url: &Url, out: &mut Out) -> Result<(), Halt> {
    if order.has("other") {
        return over_two(alloc, order, url, out);
    }
    match order.call() {
        "Url::clone" => report_owned(out, url.clone(alloc)),
        "Url:Clone" => report_owned(out, copy_apart(alloc, url)),
        "Url::reread" => report_owned(out, url.reread(alloc)),
        "Url::to_bstring" => report_owned(out, url.to_bstring(alloc)),
        "Url::to_stored" => report_owned(out, url.to_stored(alloc)),
        "Url::path_query_fragment" => report_owned(out, url.path_query_fragment(alloc)),
        "Url:fmt" => show(out, order.style(), url),
        "laws::law_value" => report_borrowed(out, &laws::law_value(url)),
        _ => look(alloc, order, url, out),
    }
}

/// Whether a copy of a location whose original was dropped is equal to it and has its hash: unchanged, and with another
/// path.
fn copy_apart(alloc: Global, url: &Url) -> Result<((bool, bool), (bool, bool)), Error> {
    let original = url.clone(alloc)?;
    let copied = original.clone(alloc);
    drop(original);
    let mut copy = copied?;
    let before = alike(&copy, url);
    copy.path = BString::new(Vec::new(alloc));
    let after = alike(&copy, url);
    drop(copy);
    Ok((before, after))
}

/// Calls that inspect a location.
fn look(alloc: Global, order: Order<'_>, url: &Url, out: &mut Out) -> Result<(), Halt> {
    match order.call() {
        "Url::is_settled" => report_borrowed(out, &url.is_settled()),
        "Url::agrees_with_git" => report_borrowed(out, &url.agrees_with_git()),
        "Url::unmet_web_condition" => report_borrowed(out, &url.unmet_web_condition()),
        "Url::is_unambiguous" => report_borrowed(out, &url.is_unambiguous()),
        "Url::unmet_condition" => report_borrowed(out, &url.unmet_condition()),
        "Url::user" => report_borrowed(out, &url.user()),
        "Url::password" => report_borrowed(out, &url.password()),
        "Url::host" => report_borrowed(out, &url.host()),
        "Url::port_or_default" => report_borrowed(out, &url.port_or_default()),
        "Url::path_is_root" => report_borrowed(out, &url.path_is_root()),
        "Url::original_path" => report_borrowed(out, &url.original_path()),
        "Url::has_spelling" => report_borrowed(out, &url.has_spelling()),
        "Url::text_len" => report_borrowed(out, &url.text_len()),
        _ => hand_out(alloc, order, url, out),
    }
}

/// Calls that judge a part of a location as an argument, or write the location.
fn hand_out(alloc: Global, order: Order<'_>, url: &Url, out: &mut Out) -> Result<(), Halt> {
    match order.call() {
        "Url::user_as_argument" => report_borrowed(out, &url.user_as_argument()),
        "Url::host_as_argument" => report_borrowed(out, &url.host_as_argument()),
        "Url::user_argument_safe" => report_borrowed(out, &url.user_argument_safe()),
        "Url::host_argument_safe" => report_borrowed(out, &url.host_argument_safe()),
        "Url::path_argument_safe" => report_borrowed(out, &url.path_argument_safe()),
        "Url::write_to" => write_to(url, out),
        _ => look_at_borrowed(alloc, order, url, out),
    }
}

/// Calls that borrow a location, and inspect or write the borrowed location.
fn look_at_borrowed(alloc: Global, order: Order<'_>, url: &Url, out: &mut Out) -> Result<(), Halt> {
    let borrowed = url.as_ref();
    match order.call() {
        "Url::as_ref" => report_borrowed(out, &borrowed),
        "crate::agrees_with_git" => report_borrowed(out, &agrees_with_git(&borrowed)),
        "crate::unmet_web_condition" => report_borrowed(out, &unmet_web_condition(&borrowed)),
        "unambiguous::is_unambiguous" => report_borrowed(out, &is_unambiguous(&borrowed)),
        "unambiguous::unmet_condition" => report_borrowed(out, &unmet_condition(&borrowed)),
        "UrlRef::is_settled" => report_borrowed(out, &borrowed.is_settled()),
        "UrlRef::original_path" => report_borrowed(out, &borrowed.original_path()),
        "UrlRef::port_or_default" => report_borrowed(out, &borrowed.port_or_default()),
        "UrlRef::path_is_root" => report_borrowed(out, &borrowed.path_is_root()),
        "PathComponents::of" => report_owned(out, PathComponents::of(alloc, &borrowed)),
        "UrlRef:fmt" => show_display(out, &borrowed),
        "UrlRef::text_len" => report_borrowed(out, &borrowed.text_len()),
        "Url::text_of" => report_owned(out, Url::text_of(alloc, &borrowed)),
        "UrlRef::write_to" => write_borrowed(&borrowed, out),
        "UrlRef::user_as_argument" => report_borrowed(out, &borrowed.user_as_argument()),
        "UrlRef::host_as_argument" => report_borrowed(out, &borrowed.host_as_argument()),
        "UrlRef::user_argument_safe" => report_borrowed(out, &borrowed.user_argument_safe()),
        "UrlRef::host_argument_safe" => report_borrowed(out, &borrowed.host_argument_safe()),
        "UrlRef::path_argument_safe" => report_borrowed(out, &borrowed.path_argument_safe()),
        _ => fill_or_cut(alloc, order, url, out),
    }
}

/// Calls that write a borrowed location into a buffer, and calls over components.
fn fill_or_cut(alloc: Global, order: Order<'_>, url: &Url, out: &mut Out) -> Result<(), Halt> {
    if order.name() == "UrlRef::write_into" {
        fill(alloc, order, &url.as_ref(), out)
    } else {
        over_components(alloc, order, url, out)
    }
}

/// Writes a location into a buffer with these bytes, and reports the result of the call and the buffer's bytes after
/// it.
fn fill(alloc: Global, order: Order<'_>, url: &UrlRef<'_>, out: &mut Out) -> Result<(), Halt> {
    let mut buffer = order.bytes(alloc, "buffer")?;
    let outcome = if order.call().is_empty() {
        Ok(())
    } else {
        let answer = url.write_into(buffer.as_mut_slice());
        report_borrowed(out, &(answer, BStr::new(buffer.as_slice())))
    };
    drop(buffer);
    outcome
}

/// Writes a location to a writer that doesn't allocate.
fn write_to(url: &Url, out: &mut Out) -> Result<(), Halt> {
    begin_written(out)?;
    let outcome = url.write_to(&mut Taking { out });
    end_written(outcome, out)
}

/// Writes a borrowed location to a writer that doesn't allocate.
fn write_borrowed(url: &UrlRef<'_>, out: &mut Out) -> Result<(), Halt> {
    begin_written(out)?;
    let outcome = url.write_to(&mut Taking { out });
    end_written(outcome, out)
}

/// Reports the text before a written location.
fn begin_written(out: &mut Out) -> Result<(), Halt> {
    report_name(out, "{", "written")?;
    Ok(out.write_all(b"\"")?)
}

/// Reports the text after a written location, and the fault if it has no text.
fn end_written(outcome: Result<(), WriteError>, out: &mut Out) -> Result<(), Halt> {
    out.write_all(b"\"")?;
    match outcome {
        Ok(()) => {}
        Err(WriteError::Fault(fault)) => report_member(out, "fault", &Some(fault))?,
        Err(WriteError::Io(error)) => return Err(Halt::NotReported(error)),
    }
    Ok(out.write_all(b"}")?)
}

/// Calls over a path, a query and a fragment.
fn over_components(alloc: Global, order: Order<'_>, url: &Url, out: &mut Out) -> Result<(), Halt> {
    match order.name() {
        "PathComponents::clone" | "QueryText::clone" | "QueryText::as_bstr" => {}
        _ => return unknown(order.call()),
    }
    let parts = components(alloc, url)?;
    let outcome = cut(alloc, order, &parts, out);
    drop(parts);
    outcome
}

/// The components of a location's path.
fn components(alloc: Global, url: &Url) -> Result<PathComponents<'_>, Halt> {
    url.path_query_fragment(alloc).map_err(build::unprepared)
}

/// Calls over a path, a query and a fragment, and over the first name of the query.
fn cut(
    alloc: Global,
    order: Order<'_>,
    parts: &PathComponents<'_>,
    out: &mut Out,
) -> Result<(), Halt> {
    match order.call() {
        "PathComponents::clone" => report_owned(out, parts.clone(alloc)),
        "QueryText::clone" => report_owned(out, first_name(parts)?.clone(alloc)),
        "QueryText::as_bstr" => report_borrowed(out, &first_name(parts)?.as_bstr()),
        call => unknown(call),
    }
}

/// Calls over two locations.
fn over_two(alloc: Global, order: Order<'_>, url: &Url, out: &mut Out) -> Result<(), Halt> {
    let other = build::url(alloc, order, "other")?;
    let outcome = match order.name() {
        "PathComponents:Eq" => over_two_paths(alloc, order, url, &other, out),
        _ => compare(order, url, &other, out),
    };
    drop(other);
    outcome
}

/// Calls over the components of two paths.
fn over_two_paths(
    alloc: Global,
    order: Order<'_>,
    url: &Url,
    other: &Url,
    out: &mut Out,
) -> Result<(), Halt> {
    let parts = components(alloc, url)?;
    let others = components(alloc, other)?;
    let is_made = !order.call().is_empty();
    let are_equal = is_made && parts == others;
    drop(parts);
    drop(others);
    if is_made {
        report_borrowed(out, &are_equal)
    } else {
        Ok(())
    }
}
