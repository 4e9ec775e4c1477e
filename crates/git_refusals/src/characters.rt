//! The first character of a text that is not allowed.

ghost use Rattle.std.specs.Prelude.{◌≡◌, ◌+◌, ◌≤◌, IfSome, MatchOption, chars, false, length};
ghost use Rattle.std.specs.List.{list_any};
ghost use Rattle.git_refusals.specs.Characters.{IsCharacterAt};
ghost use Rattle.git_syntax.specs.Bytes.{is_scheme_mark};
ghost use Rattle.git_syntax.specs.Hosts.{is_http_host_mark};
ghost use Rattle.git_refusals.specs.Internal.Wrong.{wrong_test};

/// The characters that a check searches for.
#[derive(Clone, Copy)]
pub(crate) enum Wrong {
    /// White space, as Unicode defines it.
    WhiteSpace,
    /// A character that a scheme can't have.
    InScheme,
    /// A character that the host of HTTP can't have.
    InWebHost,
    /// Any character.
    Any,
}

impl Wrong {
    /// Whether the character is one of them.
    fn holds(self, character: char) -> bool
        ensures { result ≡ wrong_test self character }
    {
        match self {
            Wrong::WhiteSpace => character.is_whitespace(),
            Wrong::InScheme => !(character.is_ascii_alphanumeric() || is_scheme_mark(character)),
            Wrong::InWebHost => !(character.is_ascii_alphanumeric() || is_host_mark(character)),
            Wrong::Any => true,
        }
    }
}

/// Whether the character is `+`, `-` or `.`.
fn is_scheme_mark(character: char) -> bool
    ensures { result ≡ is_scheme_mark character }
{
    character == '+' || character == '-' || character == '.'
}

/// Whether the character is one of `-._~!$&'()*+,;=%`.
fn is_host_mark(character: char) -> bool
    ensures { result ≡ is_http_host_mark character }
{
    ('$' <= character && character <= '.')
        || character == '!'
        || character == ';'
        || character == '='
        || character == '_'
        || character == '~'
}

/// The index and the length of the first such character, in bytes.
pub(crate) fn first_wrong(text: &str, wrong: Wrong) -> Option<(usize, usize)>
    ensures found { MatchOption result (list_any (wrong_test wrong) (chars text.now) ≡ false)
        (λ place. IsCharacterAt (wrong_test wrong) text.now place.0 place.1) }
    ensures within { IfSome result (λ place. place.0 + place.1 ≤ length text.now) }
{
    for (at, character) in text.char_indices() {
        if wrong.holds(character) {
            return Some((at, character.len_utf8()));
        }
    }
    None
}
