//! The home split: the user in whose home folder a path begins, and the path below it, both as slices of the
//! path.

ghost use Rattle.std.specs.Prelude.{◌≡◌, ◌∷◌, Some, IfOk};
ghost use Rattle.bstr.specs.Owned.{bstring_bytes};
ghost use Rattle.git_syntax.specs.Bytes.{lossy_text, slash};
ghost use Rattle.gix_url.specs.HomeReadings.{CutsHome, user_of};
ghost use Rattle.gix_url.specs.Homes.{home_user};

use super::ForUser;
use bstr::{BString, ByteSlice};
use git_syntax::bytes::{after, cut};
use std::alloc::{AllocError, Global};

/// The name of the user in whose home folder the path begins, which is empty for the current user, and the rest
/// of the path.
pub(super) fn cut_home(path: &[u8]) -> Option<(&[u8], &[u8])>
    ensures { CutsHome path.now result }
{
    let suffix = after(after(path, b'/')?, b'~')?;
    match cut(suffix, b'/') {
        Some((name, below)) => Some((name, below)),
        None => Some((suffix, b"")),
    }
}

/// The user of this name; an empty name is the current user.
pub(super) fn user_named(alloc: Global, name: &[u8]) -> Result<ForUser, AllocError>
    ensures { IfOk result (λ user. user_of user ≡ home_user name.now) }
{
    if name.is_empty() {
        return Ok(ForUser::Current);
    }
    Ok(ForUser::Name(BString::from_slice(alloc, name)?))
}

/// The path below the home folder: a `/`, and the rest as text.
pub(super) fn path_below(alloc: Global, below: &[u8]) -> Result<BString, AllocError>
    ensures { IfOk result (λ path. bstring_bytes path ≡ slash ∷ lossy_text below.now) }
{
    let mut path = String::from_str(alloc, "/")?;
    below.to_str_lossy_into(&mut path)?;
    Ok(BString::from(path))
}
