//! Calls over a scheme.

use crate::build;
use crate::calls::compare::compare;
use crate::halt::Halt;
use crate::order::{Order, unknown};
use crate::report::{Out, report_borrowed, report_owned};
use crate::shown::show;
use gix_url::Scheme;
use std::alloc::Global;

/// Calls over a scheme.
pub fn over_scheme(alloc: Global, order: Order<'_>, out: &mut Out) -> Result<(), Halt> {
    let scheme = build::scheme(alloc, order.needed("scheme")?)?;
    let outcome = look_at_scheme(alloc, order, &scheme, out);
    drop(scheme);
    outcome
}

/// Calls that inspect a scheme, or compare it with a second one.
fn look_at_scheme(
    alloc: Global,
    order: Order<'_>,
    scheme: &Scheme,
    out: &mut Out,
) -> Result<(), Halt> {
    match order.call() {
        "Scheme::clone" => report_owned(out, scheme.clone(alloc)),
        "Scheme::as_str" => report_borrowed(out, &scheme.as_str()),
        "Scheme::as_ref" => report_borrowed(out, &scheme.as_ref()),
        "SchemeRef::as_str" => report_borrowed(out, &scheme.as_ref().as_str()),
        "Scheme::default_port" => report_borrowed(out, &scheme.default_port()),
        "SchemeRef::default_port" => report_borrowed(out, &scheme.as_ref().default_port()),
        "Scheme:fmt" => show(out, order.style(), scheme),
        _ => over_two_schemes(alloc, order, scheme, out),
    }
}

/// Compares two schemes.
fn over_two_schemes(
    alloc: Global,
    order: Order<'_>,
    scheme: &Scheme,
    out: &mut Out,
) -> Result<(), Halt> {
    let Some(given) = order.text("other") else {
        return unknown(order.call());
    };
    let other = build::scheme(alloc, given)?;
    let outcome = compare(order, scheme, &other, out);
    drop(other);
    outcome
}
