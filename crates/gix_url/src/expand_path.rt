//! Home folders: the user of a path's home folder, and the path below that folder.
//!
//! The caller supplies the home folders by a closure or by one folder. If a path can be expanded, the only
//! possible errors are failed allocations.

ghost use Rattle.std.specs.Prelude.{◌≡◌, Err, IfErr, IfOk, IfSome, IsOk, IsUtf8, None, Ok, Some, false, option_map, string_bytes};
ghost use Rattle.std.specs.Fn.{FnOnceReturnsAt};
ghost use Rattle.std.specs.Option.{option_copied};
ghost use Rattle.bstr.specs.BStr.{bstr_bytes};
ghost use Rattle.bstr.specs.Owned.{bstring_bytes};
ghost use Rattle.git_syntax.specs.Grammar.{begins_at_home};
ghost use Rattle.gix_url.specs.Homes.{ForShell, HomeFolder, SplitsHome};
ghost use Rattle.gix_url.specs.Homes.HomeUser.{current, named};
ghost use Rattle.gix_url.specs.HomeOrder.{user_name};
ghost use Rattle.gix_url.specs.HomeReadings.{AnswersExpanded, Expansion, IsUnexpanded, user_of};

mod order;
mod paths;
mod split;
mod text;

use crate::error::Error;
pub use crate::home_user::ForUser;
use bstr::{BStr, BString, ByteSlice};
use paths::{parent, push_below, push_path};
use split::{cut_home, path_below, user_named};
use std::alloc::{AllocError, Global};
use text::path_text;

impl ForUser {
    /// A copy of the user. Allocates once for a name that isn't empty, and nothing for the current user.
    ///
    /// ```
    /// fn two_of(alloc: Global, user: ForUser) -> Result<(ForUser, ForUser), Error> {
    ///     let copy = user.clone(alloc)?;
    ///     Ok((user, copy))
    /// }
    /// ```
    ///
    /// # Errors
    ///
    /// [`Error::Memory`] if the name can't be copied; never for the current user.
    pub fn clone(&self, alloc: Global) -> Result<ForUser, Error>
        ensures equal { IfOk result (λ copy. user_of copy ≡ user_of self.now) }
        ensures memory { IfErr result (λ e. e ≡ Error.Memory) }
        ensures current { user_of self.now ≡ current → IsOk result }
    {
        match self {
            ForUser::Current => Ok(ForUser::Current),
            ForUser::Name(name) => Ok(ForUser::Name(BString::from_slice(alloc, name.as_bytes())?)),
        }
    }
}

impl From<ForUser> for Option<BString> {
    ghost from_gives = { λ user name. option_map bstring_bytes name ≡ user_name (user_of user) };

    /// The name of the user; the current one has none.
    fn from(user: ForUser) -> Option<BString> {
        match user {
            ForUser::Current => None,
            ForUser::Name(name) => Some(name),
        }
    }
}

/// The user in whose home folder a path begins, if it begins with `/~`, and the path below that folder.
///
/// `/~` and `/~/rest` name the current user, `/~name` and `/~name/rest` the user of that name. The path below
/// the folder is `/` and the rest, with U+FFFD in place of invalid UTF-8. Any other path has no user, and is
/// returned unchanged. Allocates copies of the name and of the path.
///
/// # Errors
///
/// [`Error::Memory`] if the name or the path can't be copied.
///
/// ```
/// /// Whether a path begins in the home folder of the current user.
/// fn is_own(alloc: Global, path: BStr<'_>) -> Result<bool, Error> {
///     let (user, _) = expand_path::parse(alloc, path)?;
///     Ok(user == Some(ForUser::Current))
/// }
/// ```
pub fn parse(alloc: Global, path: BStr<'_>) -> Result<(Option<ForUser>, BString), Error>
    ensures split { IfOk result
        (λ p. SplitsHome (bstr_bytes path.entry) (option_map user_of p.0) (bstring_bytes p.1)) }
    ensures memory { IfErr result (λ e. e ≡ Error.Memory) }
{
    match cut_home(path.as_bytes()) {
        Some((name, below)) => {
            let user = user_named(alloc, name)?;
            Ok((Some(user), path_below(alloc, below)?))
        }
        None => Ok((None, BString::from_slice(alloc, path.as_bytes())?)),
    }
}

/// The path as a shell takes it: `~name/rest` in place of `/~name/rest`.
///
/// A path that doesn't begin with `/~` is returned unchanged, and nothing is allocated.
///
/// Nothing is quoted: the caller has to quote the path for the shell.
///
/// # Errors
///
/// [`Error::Memory`] if the path of a user can't be written.
///
/// ```
/// /// The path of a location, to be given to a shell on its host.
/// fn remote_path(alloc: Global, url: Url) -> Result<BString, Error> {
///     for_shell(alloc, url.path)
/// }
/// ```
pub fn for_shell(alloc: Global, path: BString) -> Result<BString, Error>
    ensures written { IfOk result (λ text. ForShell (bstring_bytes path) (bstring_bytes text)) }
    ensures memory { IfErr result (λ e. e ≡ Error.Memory) }
    ensures unchanged { begins_at_home (bstring_bytes path) ≡ false → result ≡ Ok path }
{
    match shell_path(alloc, path.as_bytes())? {
        Some(text) => Ok(text),
        None => Ok(path),
    }
}

/// The path as a shell takes it, if it begins in a home folder.
fn shell_path(alloc: Global, path: &[u8]) -> Result<Option<BString>, AllocError>
    ensures written { IfOk result (λ text. IfSome text (λ t. ForShell path.now (bstring_bytes t))) }
    ensures homeless { begins_at_home path.now ≡ false → result ≡ Ok None }
    ensures homely { result ≡ Ok None → begins_at_home path.now ≡ false }
{
    let Some((name, below)) = cut_home(path) else {
        return Ok(None);
    };
    let rest = path_below(alloc, below)?;
    let mut text = Vec::from_slice(alloc, b"~")?;
    text.extend_from_slice(name)?;
    text.extend_from_slice(rest.as_bytes())?;
    Ok(Some(BString::new(text)))
}

/// The path, below the home folder that `home` returns for its user.
///
/// Without a user it is the path itself, and `home` is not called. With a user `home` is called once, with that
/// user; the path without its first component (the `/`, or the first segment) is joined to the result, without
/// empty segments and `.`.
///
/// # Errors
///
/// - [`Error::PathNotUtf8`] if the path is not text. This is tested first, and allocates nothing.
/// - [`Error::NoHome`], with the user, if `home` returns `None`.
/// - [`Error::Memory`] if the path can't be appended or the user can't be copied.
///
/// ```
/// /// The path, where all users have their home folders in `/home`.
/// fn in_home(alloc: Global, user: Option<&ForUser>, path: BStr<'_>) -> Result<String, Error> {
///     expand_path::with(alloc, user, path, |user| match user {
///         ForUser::Current => None,
///         ForUser::Name(name) => format!(in alloc; "/home/{name}").ok(),
///     })
/// }
/// ```
pub fn with<F: FnOnce(&ForUser) -> Option<String> + Drop>(
    alloc: Global,
    user: Option<&ForUser>,
    path: BStr<'_>,
    home: F,
) -> Result<String, Error>
    requires { IsUtf8 (bstr_bytes path) → IfSome user (λ u. F.pre home u) }
    ensures no_text { ¬ IsUtf8 (bstr_bytes path.entry) → result ≡ Err Error.PathNotUtf8 }
    ensures userless { user.entry ≡ None
        → IfOk result (λ s. string_bytes s ≡ bstr_bytes path.entry) }
    ensures memory { IsUtf8 (bstr_bytes path.entry) → user.entry ≡ None
        → IfErr result (λ e. e ≡ Error.Memory) }
    ensures at_home { IsUtf8 (bstr_bytes path.entry) → IfSome user.entry (λ u. (answer : _)
        × FnOnceReturnsAt F.FnOnce home u.now answer
        × Expansion (λ folder. option_map string_bytes answer ≡ folder) (user_of u.now)
        (bstr_bytes path.entry) result) }
    ensures refused { IfErr result
        (IsUnexpanded (option_map user_of (option_copied user.entry)) (bstr_bytes path.entry)) }
{
    let Some(text) = path_text(path.as_bytes()) else {
        return Err(Error::PathNotUtf8);
    };
    match user {
        None => Ok(String::from_str(alloc, text)?),
        Some(user) => enter(alloc, home(user), user, text),
    }
}

/// The path, below the home folder of its user. The home folders of other users are next to that of the current
/// user.
///
/// Without a user it is the path itself. The path of the current user is below `home`; that of another user is
/// below the folder of that name in the parent of `home`, with U+FFFD in place of invalid UTF-8 in the name.
/// The path without its first component (the `/`, or the first segment) is joined to that folder, without empty
/// segments and `.`.
///
/// # Errors
///
/// - [`Error::PathNotUtf8`] if the path is not text. This is tested first, and allocates nothing.
/// - [`Error::NoHome`], with the user, if there is no `home`, or if another user's folder is needed and `home`
///   has no parent.
/// - [`Error::Memory`] if the result or the user can't be copied.
///
/// ```
/// /// A path below the home folder of its user, by the home folder that the environment names.
/// fn expand(rt: &(impl Env + AllocGlobal), path: BStr<'_>) -> Result<String, Error> {
///     let (user, rest) = expand_path::parse(rt.alloc(), path)?;
///     let home = env::home_dir(rt).ok().flatten();
///     let home = home.as_ref().map(|home| home.as_path().as_str());
///     expand_path::expand_path(rt.alloc(), user.as_ref(), rest.as_bstr(), home)
/// }
/// ```
pub fn expand_path(
    alloc: Global,
    user: Option<&ForUser>,
    path: BStr<'_>,
    home: Option<&str>,
) -> Result<String, Error>
    ensures no_text { ¬ IsUtf8 (bstr_bytes path.entry) → result ≡ Err Error.PathNotUtf8 }
    ensures expanded { IsUtf8 (bstr_bytes path.entry) → AnswersExpanded
        (option_copied home.entry) (option_map user_of (option_copied user.entry))
        (bstr_bytes path.entry) result }
    ensures refused { IfErr result
        (IsUnexpanded (option_map user_of (option_copied user.entry)) (bstr_bytes path.entry)) }
{
    let Some(path) = path_text(path.as_bytes()) else {
        return Err(Error::PathNotUtf8);
    };
    match user {
        None => Ok(String::from_str(alloc, path)?),
        Some(user) => {
            let folder = home_folder(alloc, user, home)?;
            enter(alloc, folder, user, path)
        }
    }
}

/// The path below a home folder, which is changed in place, or the error that the user has none.
fn enter(alloc: Global, home: Option<String>, user: &ForUser, path: &str) -> Result<String, Error>
    ensures { Expansion (λ folder. option_map string_bytes home ≡ folder)
        (user_of user.now) path.now result }
{
    match home {
        Some(mut folder) => {
            push_below(&mut folder, path)?;
            Ok(folder)
        }
        None => Err(Error::NoHome(user.clone(alloc)?)),
    }
}

/// The home folder of a user, from that of the current user.
fn home_folder(
    alloc: Global,
    user: &ForUser,
    home: Option<&str>,
) -> Result<Option<String>, AllocError>
    ensures { IfOk result
        (λ r. HomeFolder (option_copied home.entry) (user_of user.now)
        (option_map string_bytes r)) }
{
    let Some(home) = home else {
        return Ok(None);
    };
    match user {
        ForUser::Current => Ok(Some(String::from_str(alloc, home)?)),
        ForUser::Name(name) => folder_beside(alloc, home, name.as_bytes()),
    }
}

/// The folder of this name next to another.
fn folder_beside(alloc: Global, home: &str, name: &[u8]) -> Result<Option<String>, AllocError>
    ensures { IfOk result
        (λ r. HomeFolder (Some home.now) (named name.now) (option_map string_bytes r)) }
{
    let Some(parent) = parent(home) else {
        return Ok(None);
    };
    let mut shown = String::new(alloc);
    name.to_str_lossy_into(&mut shown)?;
    let mut folder = String::from_str(alloc, parent)?;
    push_path(&mut folder, shown.as_str())?;
    Ok(Some(folder))
}
