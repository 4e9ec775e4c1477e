//! Words that Git compares ignoring letter case (ASCII).

ghost use Rattle.std.specs.Prelude.{◌≡◌};
ghost use Rattle.git_rules.specs.Words.{is_word};

/// Whether the text is the word, ignoring letter case. Most sections and names are written as the word is.
pub(crate) fn is_word(text: &[u8], word: &str) -> bool
    ensures { result ≡ is_word text.now word.now }
{
    if text == word.as_bytes() {
        return true;
    }
    text.eq_ignore_ascii_case(word.as_bytes())
}
