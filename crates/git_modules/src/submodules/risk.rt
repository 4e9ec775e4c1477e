//! The dangers and errors in a `.gitmodules` file beyond those that Git's fsck refuses.
//!
//! A definition of one line decides each risk, for one entry.

ghost use Rattle.std.specs.Prelude.{◌≡◌};
ghost use Rattle.std.specs.List.{list_any};
ghost use Rattle.git_modules.specs.SubmoduleRisks.{git_folder, has_component_word, has_risk, has_valued_name};
ghost use Rattle.git_syntax.specs.Bytes.{begins_by, is_any_slash};
ghost use Rattle.git_class.specs.WebClass.{is_control};

use crate::submodules::{has_component, is_separator, submodule_of, value_by};
use git_rules::config::Entry;
use git_syntax::bytes::starts_with_byte;
use thiserror::Error;

/// A danger or an error in an entry of a submodule that Git's fsck accepts. [`has_risk`] has an example.
#[derive(Clone, Copy, Debug, PartialEq, Eq, Error)]
pub enum Risk {
    /// The path begins with `/` or `\`.
    #[error("the path of the submodule is absolute")]
    AbsolutePath,
    /// The path has a component `..`.
    #[error("the path of the submodule leads upwards")]
    PathUpwards,
    /// The path has a component `.git`, ignoring letter case.
    #[error("the path of the submodule leads into a Git folder")]
    PathIntoGit,
    /// The branch begins with `-`.
    #[error("the branch of the submodule looks like an option")]
    OptionAsBranch,
    /// The way to update begins with `-`.
    #[error("the way to update the submodule looks like an option")]
    OptionAsUpdate,
    /// The value contains a control character.
    #[error("the value has a control character")]
    ControlCharacter,
    /// The key has no value, and Git stops there.
    #[error("the key has no value")]
    NoValue,
}

/// Whether an entry of a `.gitmodules` file has this risk.
///
/// Only entries of the section `submodule` with a subsection have risks. A component ends at a `/` or a `\`. A
/// control character is a byte below 32 or the byte 127. [`Risk::NoValue`] applies to `path`, `url`, `update`,
/// `branch` and `ignore`, at which Git stops.
///
/// ```
/// /// Whether the entries have no risk in a path.
/// fn are_paths_safe(entries: &[Entry<'_>]) -> bool {
///     for entry in entries {
///         if has_risk(entry, Risk::AbsolutePath)
///             || has_risk(entry, Risk::PathUpwards)
///             || has_risk(entry, Risk::PathIntoGit)
///         {
///             return false; // of `/a`, of `a/../b` and of `a/.GIT`
///         }
///     }
///     true
/// }
/// ```
pub fn has_risk(entry: &Entry<'_>, risk: Risk) -> bool
    ensures { result ≡ has_risk risk entry.now }
{
    match risk {
        Risk::AbsolutePath => value_by(entry, "path").map_or(false, |path| is_absolute(path)),
        Risk::PathUpwards => {
            value_by(entry, "path").map_or(false, |path| has_component(path, b".."))
        }
        Risk::PathIntoGit => value_by(entry, "path").map_or(false, |path| leads_into_git(path)),
        Risk::OptionAsBranch => {
            value_by(entry, "branch").map_or(false, |branch| starts_with_byte(branch, b'-'))
        }
        Risk::OptionAsUpdate => {
            value_by(entry, "update").map_or(false, |update| starts_with_byte(update, b'-'))
        }
        Risk::ControlCharacter => {
            submodule_of(entry).is_some() && entry.value.map_or(false, |value| has_control(value))
        }
        Risk::NoValue => {
            submodule_of(entry).is_some() && entry.value.is_none() && has_valued_name(entry)
        }
    }
}

/// Whether the path begins with a separator.
fn is_absolute(path: &[u8]) -> bool
    ensures { result ≡ begins_by is_any_slash path.now }
{
    match path {
        [] => false,
        [first, ..] => is_separator(*first),
    }
}

/// Whether one of the components of the path is `.git`, ignoring letter case.
fn leads_into_git(path: &[u8]) -> bool
    ensures { result ≡ has_component_word git_folder path.now }
{
    path.split(|byte| is_separator(*byte))
        .any(|part| part.eq_ignore_ascii_case(b".git"))
}

/// Whether the text contains a control character.
fn has_control(text: &[u8]) -> bool
    ensures { result ≡ list_any is_control text.now }
{
    text.iter().any(|byte| *byte < 32 || *byte == 127)
}

/// Whether the entry has one of the names for which Git needs a value.
fn has_valued_name(entry: &Entry<'_>) -> bool
    ensures { result ≡ has_valued_name entry.now }
{
    entry.is_name("path")
        || entry.is_name("url")
        || entry.is_name("update")
        || entry.is_name("branch")
        || entry.is_name("ignore")
}
