//! Every location is a value in the sense of the laws.
//!
//! The functions have no effect. Their contracts are the facts that the types of the fields imply: a text is
//! UTF-8, a byte is below 256, and a port is below 65,536.

ghost use Rattle.std.specs.Prelude.{◌<◌, All, IfSome, IsUtf8, option_map};
ghost use Rattle.git_location.specs.Settled.{IsValue};

use crate::url_ref::UrlRef;

/// Every borrowed location is a value in the sense of the laws.
pub fn law_borrowed_value(url: &UrlRef<'_>)
    ensures value { IsValue url.now }
{
    law_text(url.user);
    law_text(url.password);
    law_text(url.host);
    law_port(url.port);
    law_bytes(url.path);
    law_spelling(url.spelling);
}

/// A text, if it is there, is UTF-8.
fn law_text(text: Option<&str>)
    ensures { IfSome (option_map (λ t. t.now) text.entry) IsUtf8 }
{
    match text {
        None => {}
        Some(_) => {}
    }
}

/// A port is below 65,536.
fn law_port(port: Option<u16>)
    ensures { IfSome port (λ p. p < 65536) }
{
    match port {
        None => {}
        Some(_) => {}
    }
}

/// A byte is below 256.
fn law_bytes(bytes: &[u8])
    ensures { All (λ b. b < 256) bytes.now }
{}

/// Each byte of a spelling is below 256.
fn law_spelling(spelling: Option<&[u8]>)
    ensures { IfSome (option_map (λ t. t.now) spelling.entry) (λ s. All (λ b. b < 256) s) }
{
    match spelling {
        None => {}
        Some(bytes) => law_bytes(bytes),
    }
}
