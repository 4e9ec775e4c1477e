//! Home folders. `expand_path` is in its module, and not also at the crate's root: Rattle refuses a module and an item
//! with one name there. The closure that returns a home folder is also `Drop`, since it may not be called.

ghost use Rattle.std.specs.Prelude.{IfSome, IsUtf8};
ghost use Rattle.bstr.specs.BStr.{bstr_bytes};

use bstr::{BStr, BString};
use gix_url::Error;
use gix_url::expand_path::{self, ForUser};
use std::alloc::Global;

/// A user, destructured and rebuilt.
pub fn same_user(user: ForUser) -> ForUser {
    match user {
        ForUser::Current => ForUser::Current,
        ForUser::Name(name) => named(name),
    }
}

/// The user with a name.
pub fn named(name: BString) -> ForUser {
    ForUser::Name(name)
}

/// The name of a user.
pub fn name_of(user: ForUser) -> Option<BString> {
    Option::<BString>::from(user)
}

/// Calls `ForUser::clone`.
pub fn copied(user: &ForUser, alloc: Global) -> Result<ForUser, Error> {
    ForUser::clone(user, alloc)
}

/// Calls `expand_path::parse`.
pub fn split(alloc: Global, path: BStr<'_>) -> Result<(Option<ForUser>, BString), Error> {
    expand_path::parse(alloc, path)
}

/// Calls `expand_path::for_shell`.
pub fn for_shell(alloc: Global, path: BString) -> Result<BString, Error> {
    expand_path::for_shell(alloc, path)
}

/// Calls `expand_path::with`.
pub fn expand_with<F: FnOnce(&ForUser) -> Option<String> + Drop>(
    alloc: Global,
    user: Option<&ForUser>,
    path: BStr<'_>,
    home: F,
) -> Result<String, Error>
    requires { IsUtf8 (bstr_bytes path) → IfSome user (λ u. F.pre home u) }
{
    expand_path::with(alloc, user, path, home)
}

/// Calls `expand_path::expand_path`.
pub fn expand(
    alloc: Global,
    user: Option<&ForUser>,
    path: BStr<'_>,
    home: Option<&str>,
) -> Result<String, Error> {
    expand_path::expand_path(alloc, user, path, home)
}
