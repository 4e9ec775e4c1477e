//! Decoding as Git does it: the escape of byte 0 stays.

ghost use Rattle.std.specs.Prelude.{◌≡◌, ◌<◌, ◌++◌, ℕ, IfErr, IfOk, length};
ghost use Rattle.git_syntax.specs.Internal.Decoding.{IsDigit};
ghost use Rattle.git_reads.specs.Git.{git_decode};
ghost use Rattle.git_reads.specs.Internal.{ReadsEscape};

use git_syntax::bytes::after;
use std::alloc::AllocError;

/// Appends the text with each escape replaced by its byte, but not the escape of byte 0.
pub fn append_decoded(out: &mut Vec<u8>, text: &[u8]) -> Result<(), AllocError>
    ensures value { IfOk result (λ _. out.new.items ≡ out.old.items ++ git_decode text.now) }
    ensures memory { IfErr result (λ _. 0 < length text.now) }
{
    let mut rest = text;
    while let Some((first, tail)) = rest.split_first() {
        match read_escape(rest) {
            Some((byte, suffix)) => {
                out.push(byte)?;
                rest = suffix;
            }
            None => {
                out.push(*first)?;
                rest = tail;
            }
        }
    }
    Ok(())
}

/// The byte of an escape that begins the text, unless it is byte 0, and the text after the escape.
fn read_escape(text: &[u8]) -> Option<(u8, &[u8])>
    ensures { ReadsEscape text.now result }
{
    let [high, low, suffix @ ..] = after(text, b'%')? else {
        return None;
    };
    let high = hexadecimal(*high)?;
    let low = hexadecimal(*low)?;
    let byte = 16 * high + low;
    if byte == 0 {
        None
    } else {
        Some((byte, suffix))
    }
}

/// The value of a hexadecimal digit of either case.
fn hexadecimal(byte: u8) -> Option<u8>
    ensures { IsDigit byte result }
{
    match byte {
        b'0'..=b'9' => Some(byte - b'0'),
        b'A'..=b'F' => Some(byte - b'A' + 10),
        b'a'..=b'f' => Some(byte - b'a' + 10),
        _ => None,
    }
}
