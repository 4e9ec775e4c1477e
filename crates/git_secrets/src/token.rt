//! Possible tokens: a token is a secret that replaces a user, or a user and a password.

ghost use Rattle.std.specs.Prelude.{◌≡◌};
ghost use Rattle.std.specs.List.{list_any};
ghost use Rattle.git_secrets.specs.Tokens as spec;

/// The least length of a token that no `@` follows: a shorter word may be the name of a repository.
const LEAST_TOKEN: usize = 24;

/// Whether no token contains the byte.
pub(crate) fn is_gap(byte: u8) -> bool
    ensures { result ≡ spec.is_gap byte }
{
    !(byte.is_ascii_alphanumeric() || byte == b'_' || byte == b'-')
}

/// Whether the word begins as a token, and is as long as one.
#[tactic(auto, unfolding(crate::specs::Tokens::is_token_word))]
pub(crate) fn is_token_word(word: &[u8]) -> bool
    ensures { result ≡ spec.is_token_word word.now }
{
    word.len() >= LEAST_TOKEN && begins_as_token(word)
}

/// Whether the text begins with the prefix of a token of GitHub, GitLab or Bitbucket, by their manuals.
pub(crate) fn begins_as_token(text: &[u8]) -> bool
    ensures { result ≡ spec.begins_as_token text.now }
{
    begins_as_one_of(
        text,
        &[
            "ghp_",
            "gho_",
            "ghu_",
            "ghs_",
            "ghr_",
            "github_pat_",
            "glpat-",
            "gldt-",
            "glrt-",
            "glcbt-",
            "glptt-",
            "glft-",
            "glimt-",
            "glagent-",
            "gloas-",
            "glsoat-",
            "ATBB",
            "ATCTT3",
        ],
    )
}

/// Whether the text begins with one of these prefixes.
fn begins_as_one_of(text: &[u8], fronts: &[&str]) -> bool
    ensures { result ≡ list_any (λ front. spec.has_front text.now front.now) fronts.now }
{
    fronts.iter().any(|front| has_front(text, front))
}

/// Whether the text begins with this prefix.
pub(crate) fn has_front(text: &[u8], front: &str) -> bool
    ensures { result ≡ spec.has_front text.now front.now }
{
    text.starts_with(front.as_bytes())
}
