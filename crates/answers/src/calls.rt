//! The table of calls, one a line, by the type of their input.
//!
//! The names are those of the library's public functions; a single colon precedes the name of a trait's method. Each
//! function builds the inputs of its calls, and then makes the call, unless the order ends before it. Each module below
//! has the calls over one kind of value; those over errors, and the laws, which have no input, are here.

mod change;
mod compare;
mod home;
mod record;
mod scheme;
mod text;
mod url;

use crate::halt::Halt;
use crate::order::{Order, unknown};
use crate::report::{Out, report_borrowed, report_owned};
use crate::shown::show;
use crate::{build, dangers, errors, misreadings, resolved, rule_words, rules, secrets};
use git_audit::secret::law::law_secrets;
use gix_url::lines::{fault_line, status};
use gix_url::{Url, laws};
use home::{over_path, over_user};
use record::{over_json, over_record};
use scheme::over_scheme;
use std::alloc::Global;
use text::{over_lines, over_text};
use url::over_url;

/// Makes the call of an order, by the type of its input.
pub fn make(alloc: Global, order: &Order<'_>, out: &mut Out) -> Result<(), Halt> {
    let order = *order;
    if rule_words::has(order.name()) {
        rule_words::show(order, out)
    } else if dangers::has(order.name()) {
        dangers::make(alloc, order, out)
    } else if misreadings::has(order.name()) {
        misreadings::make(alloc, order, out)
    } else if secrets::has(order.name()) {
        secrets::make(alloc, order, out)
    } else if resolved::has(order.name()) {
        resolved::make(alloc, order, out)
    } else if rules::has(order.name()) {
        rules::make(alloc, order, out)
    } else if order.has("url") {
        over_url(alloc, order, out)
    } else if order.has("record") {
        over_record(alloc, order, out)
    } else if order.has("scheme") {
        over_scheme(alloc, order, out)
    } else if order.has("path") {
        over_path(alloc, order, out)
    } else if order.has("user") {
        over_user(alloc, order, out)
    } else if order.has("text") && order.name() == "lines::run" {
        over_lines(alloc, order, out)
    } else if order.has("text") && !is_over_error(order.name()) {
        over_text(alloc, order, out)
    } else if order.has("json") {
        over_json(alloc, order, out)
    } else {
        over_error(alloc, order, out)
    }
}

/// Whether a call is over an error, which an order may name by a text that is refused with it.
fn is_over_error(name: &str) -> bool {
    matches!(name, "Error:fmt" | "Error::is_memory" | "Error::refusal")
}

/// Calls over an error, a form or a fault, and calls without input.
fn over_error(alloc: Global, order: Order<'_>, out: &mut Out) -> Result<(), Halt> {
    if is_over_error(order.name()) {
        return look_at_error(alloc, order, out);
    }
    let style = order.style();
    match order.call() {
        "UrlKind:fmt" => show(out, style, &errors::kind(order.needed("kind")?)?),
        "UrlFault:fmt" => show(out, style, &errors::fault(order.needed("fault")?)?),
        "WriteFault:fmt" => show(out, style, &errors::write_fault(order.needed("fault")?)?),
        "WriteError:fmt" => show(out, style, &errors::write_error(order)?),
        "RunError:fmt" => show(out, style, &errors::run_error(order)?),
        "lines::fault_line" => report_borrowed(out, &fault_line(&errors::run_error(order)?)),
        "lines::status" => report_borrowed(out, &status(&errors::outcome(order)?)),
        "Url::default_in" => report_owned(out, Url::default_in(alloc)),
        _ => over_nothing(order, out),
    }
}

/// Calls that inspect an error, or show it.
fn look_at_error(alloc: Global, order: Order<'_>, out: &mut Out) -> Result<(), Halt> {
    let error = errors::error(alloc, order)?;
    let outcome = match order.call() {
        "Error::is_memory" => report_borrowed(out, &error.is_memory()),
        "Error::refusal" => report_borrowed(out, &error.refusal()),
        "Error:fmt" => show(out, order.style(), &error),
        call => unknown(call),
    };
    drop(error);
    outcome
}

/// Laws, which hold for all values, and whose calls do nothing.
fn over_nothing(order: Order<'_>, out: &mut Out) -> Result<(), Halt> {
    match order.call() {
        "laws::law_address_test" => report_borrowed(out, &laws::law_address_test()),
        "laws::law_sets" => report_borrowed(out, &laws::law_sets()),
        "laws::law_arguments" => report_borrowed(out, &laws::law_arguments()),
        "laws::law_separation" => report_borrowed(out, &laws::law_separation()),
        "laws::law_stored" => report_borrowed(out, &laws::law_stored()),
        "laws::law_closed" => report_borrowed(out, &laws::law_closed()),
        "laws::law_order" => report_borrowed(out, &laws::law_order()),
        "laws::law_scheme_order" => report_borrowed(out, &laws::law_scheme_order()),
        _ => over_nothing_else(order, out),
    }
}

/// The other laws, and calls over judgements of parts.
fn over_nothing_else(order: Order<'_>, out: &mut Out) -> Result<(), Halt> {
    match order.call() {
        "laws::law_refusals" => report_borrowed(out, &laws::law_refusals()),
        "laws::law_readers" => report_borrowed(out, &laws::law_readers()),
        "laws::law_lines" => report_borrowed(out, &laws::law_lines()),
        "laws::law_components" => report_borrowed(out, &laws::law_components()),
        "laws::law_git" => report_borrowed(out, &laws::law_git()),
        "laws::law_known_readers" => report_borrowed(out, &laws::law_known_readers()),
        "laws::law_unambiguous" => report_borrowed(out, &laws::law_unambiguous()),
        "laws::law_stripped" => report_borrowed(out, &laws::law_stripped()),
        "laws::law_homes" => report_borrowed(out, &laws::law_homes()),
        "laws::law_user_order" => report_borrowed(out, &laws::law_user_order()),
        "laws::law_secrets" => report_borrowed(out, &law_secrets()),
        "laws::law_hidden_password" => report_borrowed(out, &laws::law_hidden_password()),
        "ArgumentSafety:Eq" => over_judgements(order, out),
        _ => rules::over_nothing(order, out),
    }
}

/// Whether a judgement of a part is equal to a copy of it, and to another one.
fn over_judgements(order: Order<'_>, out: &mut Out) -> Result<(), Halt> {
    let one = build::judgement(order, "one");
    let copy = one;
    report_borrowed(out, &(one == copy, one == build::judgement(order, "other")))
}
