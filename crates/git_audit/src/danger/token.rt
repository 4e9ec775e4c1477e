//! Possible tokens: a token is a secret that replaces a user, or a user and a password.

ghost use Rattle.std.specs.Prelude.{◌≡◌, option_map};
ghost use Rattle.std.specs.List.{list_any};
ghost use Rattle.std.specs.Option.{is_some};
ghost use Rattle.git_syntax.specs.Views.{borrowed_scheme};
ghost use Rattle.git_audit.specs.Dangers as spec;

use git_syntax::scheme::SchemeRef;

/// The least length of a token in a path: a shorter word may be the name of a repository.
const LEAST_TOKEN: usize = 24;

/// The least length of a user that may be a token whatever its prefix.
const LEAST_USER: usize = 20;

/// Whether there is a user, and it may be a token.
pub(super) fn has_token_user(
    scheme: SchemeRef<'_>,
    user: Option<&str>,
    password: Option<&str>,
) -> bool
    ensures { result ≡ spec.has_token_user (borrowed_scheme scheme.entry)
        (option_map (λ t. t.now) user.entry) (option_map (λ t. t.now) password.entry) }
{
    match user {
        None => false,
        Some(user) => is_token_user(scheme, user.as_bytes(), is_there(password)),
    }
}

/// Whether the part is present.
pub(super) fn is_there(part: Option<&str>) -> bool
    ensures { result ≡ is_some (option_map (λ t. t.now) part.entry) }
{
    match part {
        None => false,
        Some(_) => true,
    }
}

/// Whether the user may be a token.
fn is_token_user(scheme: SchemeRef<'_>, user: &[u8], has_password: bool) -> bool
    ensures { result ≡ spec.is_token_user (borrowed_scheme scheme.entry) user.now has_password }
{
    begins_as_token(user) || is_long_user(scheme, user, has_password)
}

/// Whether this is a long user of an HTTP location without a password.
fn is_long_user(scheme: SchemeRef<'_>, user: &[u8], has_password: bool) -> bool
    ensures { result ≡ spec.is_long_user (borrowed_scheme scheme.entry) user.now has_password }
{
    is_of_http(scheme) && !has_password && user.len() >= LEAST_USER
}

/// Whether the scheme is `http` or `https`.
pub(super) fn is_of_http(scheme: SchemeRef<'_>) -> bool
    ensures { result ≡ spec.is_of_http (borrowed_scheme scheme.entry) }
{
    matches!(scheme, SchemeRef::Http | SchemeRef::Https)
}

/// Whether a word of the text is a token.
pub(super) fn holds_token(text: &[u8]) -> bool
    ensures { result ≡ spec.holds_token text.now }
{
    text.split(|byte| is_gap(*byte))
        .any(|word| is_token_word(word))
}

/// Whether no token contains the byte.
pub(crate) fn is_gap(byte: u8) -> bool
    ensures { result ≡ spec.is_gap byte }
{
    !(byte.is_ascii_alphanumeric() || byte == b'_' || byte == b'-')
}

/// Whether the word begins as a token, and is as long as one.
#[tactic(auto, unfolding(crate::specs::Dangers::is_token_word))]
pub(crate) fn is_token_word(word: &[u8]) -> bool
    ensures { result ≡ spec.is_token_word word.now }
{
    word.len() >= LEAST_TOKEN && begins_as_token(word)
}

/// Whether the text begins with the prefix of a token of GitHub, GitLab or Bitbucket, by their manuals.
fn begins_as_token(text: &[u8]) -> bool
    ensures { result ≡ spec.begins_as_token text.now }
{
    begins_as_one_of(
        text,
        &[
            "ghp_",
            "gho_",
            "ghu_",
            "ghs_",
            "ghr_",
            "github_pat_",
            "glpat-",
            "gldt-",
            "glrt-",
            "glcbt-",
            "glptt-",
            "glft-",
            "glimt-",
            "glagent-",
            "gloas-",
            "glsoat-",
            "ATBB",
            "ATCTT3",
        ],
    )
}

/// Whether the text begins with one of these prefixes.
fn begins_as_one_of(text: &[u8], fronts: &[&str]) -> bool
    ensures { result ≡ list_any (λ front. spec.has_front text.now front.now) fronts.now }
{
    fronts.iter().any(|front| has_front(text, front))
}

/// Whether the text begins with this prefix.
pub(crate) fn has_front(text: &[u8], front: &str) -> bool
    ensures { result ≡ spec.has_front text.now front.now }
{
    text.starts_with(front.as_bytes())
}
