//! Calls over a path and the home folder of a user.

use crate::build;
use crate::calls::compare::{compare, hash_of};
use crate::halt::Halt;
use crate::order::{Order, unknown};
use crate::report::{Out, report_owned};
use bstr::{BStr, BString};
use gix_url::expand_path::{self, ForUser};
use std::alloc::Global;

/// Calls over a path, with a user and a home folder.
pub fn over_path(alloc: Global, order: Order<'_>, out: &mut Out) -> Result<(), Halt> {
    let path = BString::new(order.bytes(alloc, "path")?);
    let user = build::user(alloc, order, "user")?;
    let before = user.as_ref().map(hash_of);
    let outcome = match order.call() {
        "expand_path::for_shell" => report_owned(out, expand_path::for_shell(alloc, path)),
        _ => over_home(alloc, order, &user, &path, out),
    };
    let is_changed = user.as_ref().map(hash_of) != before;
    drop(user);
    if is_changed {
        Err(Halt::Changed)
    } else {
        outcome
    }
}

/// Calls over a user, a path and a home folder.
fn over_home(
    alloc: Global,
    order: Order<'_>,
    user: &Option<ForUser>,
    path: &BString,
    out: &mut Out,
) -> Result<(), Halt> {
    let home = order.owned(alloc, "home")?;
    match order.call() {
        "expand_path::with" => expand_with(alloc, user, path.as_bstr(), home, out),
        "expand_path::expand_path" => {
            let (user, path) = (user.as_ref(), path.as_bstr());
            report_owned(
                out,
                expand_path::expand_path(alloc, user, path, home.as_deref()),
            )
        }
        call => unknown(call),
    }
}

/// Expands a path, and reports how often the home folder of the user was requested. A request for another user counts
/// as 100.
fn expand_with(
    alloc: Global,
    user: &Option<ForUser>,
    path: BStr<'_>,
    home: Option<String>,
    out: &mut Out,
) -> Result<(), Halt> {
    let mut asked = 0u8;
    let outcome = expand_path::with(alloc, user.as_ref(), path, |one| {
        asked = asked.saturating_add(if Some(one) == user.as_ref() { 1 } else { 100 });
        home
    });
    report_owned(out, (outcome, asked))
}

/// Calls over a user, or over two users.
pub fn over_user(alloc: Global, order: Order<'_>, out: &mut Out) -> Result<(), Halt> {
    let Some(user) = build::user(alloc, order, "user")? else {
        return Err(Halt::Unprepared);
    };
    match order.call() {
        "ForUser:into" => report_owned(out, Option::<BString>::from(user)),
        _ => {
            let outcome = look_at_user(alloc, order, &user, out);
            drop(user);
            outcome
        }
    }
}

/// Calls that inspect a user, or compare it with a second one.
fn look_at_user(
    alloc: Global,
    order: Order<'_>,
    user: &ForUser,
    out: &mut Out,
) -> Result<(), Halt> {
    let other = build::user(alloc, order, "other")?;
    let outcome = match (&other, order.call()) {
        (Some(other), _) => compare(order, user, other, out),
        (None, "ForUser::clone") => report_owned(out, user.clone(alloc)),
        (None, call) => unknown(call),
    };
    drop(other);
    outcome
}
