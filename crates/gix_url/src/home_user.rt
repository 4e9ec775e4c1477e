//! The type of users of home folders. `expand_path` has its functions and re-exports it; errors contain it.

use bstr::BString;

/// The user in whose home folder a path begins.
///
/// The current user comes before all others in order, and others by the bytes of their names.
///
/// ```
/// fn is_current(user: &ForUser) -> bool {
///     matches!(user, ForUser::Current)
/// }
/// ```
#[derive(Debug, Drop)]
pub enum ForUser {
    /// The current user.
    Current,
    /// The user of this name.
    Name(BString),
}
