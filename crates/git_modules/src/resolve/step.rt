//! The steps `./` and `../` at the front of a URL.

ghost use Rattle.std.specs.Prelude.{◌≡◌, option_map};
ghost use Rattle.git_modules.specs.ResolveSteps.{past_byte, after_here, after_up};

use git_syntax::bytes::after;

/// The text after a leading `./`.
pub fn after_here(text: &[u8]) -> Option<&[u8]>
    ensures { option_map (λ t. t.now) result ≡ after_here text.now }
{
    let rest = past_byte(text, b'.')?;
    past_byte(rest, b'/')
}

/// The text after a leading `../`.
pub fn after_up(text: &[u8]) -> Option<&[u8]>
    ensures { option_map (λ t. t.now) result ≡ after_up text.now }
{
    let rest = past_byte(text, b'.')?;
    after_here(rest)
}

/// The text after its first byte, if that is `c`.
fn past_byte(text: &[u8], c: u8) -> Option<&[u8]>
    ensures { option_map (λ t. t.now) result ≡ past_byte c text.now }
{
    match after(text, c) {
        Some(rest) => Some(rest),
        None => None,
    }
}
