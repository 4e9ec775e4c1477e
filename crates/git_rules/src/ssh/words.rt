//! The words of a command: the options for an address family and a port, the destination and the remote command,
//! with the path in Git's quotes.
//!
//! Each word is allocated once.

ghost use Rattle.std.specs.Prelude.{◌≡◌, ◌*◌, ◌^◌, ◌≤◌, ◌++◌, [], ◌∷◌, IfOk, OnOk, flat_map, length, map, option_map};
ghost use Rattle.bstr.specs.Owned.{bstring_bytes};
ghost use Rattle.git_rules.specs.SecureShell as spec;
ghost use Rattle.git_rules.specs.ShellWords.{is_unquoted, quoted_byte};

use crate::ssh::{AddressFamily, SshVariant};
use bstr::BString;
use itoa::Buffer;
use std::alloc::{AllocError, Global};

/// Appends a word.
pub(super) fn push(alloc: Global, words: &mut Vec<BString>, word: &[u8]) -> Result<(), AllocError>
    ensures { OnOk result (map bstring_bytes words.new.items
        ≡ map bstring_bytes words.old.items ++ word.now ∷ []) }
{
    words.push(BString::from_slice(alloc, word)?)?;
    Ok(())
}

/// Appends the option for the address family, if there is one, and the one by which TortoisePlink opens no window.
pub(super) fn push_client(
    alloc: Global,
    words: &mut Vec<BString>,
    variant: SshVariant,
    family: AddressFamily,
) -> Result<(), AllocError>
    ensures { OnOk result (map bstring_bytes words.new.items
        ≡ map bstring_bytes words.old.items ++ spec.client_words variant family) }
{
    match family {
        AddressFamily::Any => {}
        AddressFamily::V4 => push(alloc, words, b"-4")?,
        AddressFamily::V6 => push(alloc, words, b"-6")?,
    }
    match variant {
        SshVariant::TortoisePlink => push(alloc, words, b"-batch"),
        _ => Ok(()),
    }
}

/// Appends the option for a port and the port's digits. The variant `simple` has no such option.
pub(super) fn push_port(
    alloc: Global,
    words: &mut Vec<BString>,
    variant: SshVariant,
    port: Option<u16>,
) -> Result<(), AllocError>
    ensures { OnOk result (map bstring_bytes words.new.items
        ≡ map bstring_bytes words.old.items ++ spec.port_words variant port) }
{
    let Some(port) = port else {
        return Ok(());
    };
    push(alloc, words, port_option(variant))?;
    let mut digits = Buffer::new();
    push(alloc, words, digits.format(port).as_bytes())
}

/// The option for a port.
fn port_option(variant: SshVariant) -> &'static [u8]
    ensures { result.now ≡ spec.port_option variant }
{
    match variant {
        SshVariant::Ssh => b"-p",
        SshVariant::Simple => b"",
        SshVariant::Plink | SshVariant::Putty | SshVariant::TortoisePlink => b"-P",
    }
}

/// Returns the user and `@`, if there is a user, and the host.
pub(super) fn destination(
    alloc: Global,
    user: Option<&str>,
    host: &str,
) -> Result<BString, AllocError>
    ensures { IfOk result (λ t. bstring_bytes t
        ≡ spec.destination (option_map (λ u. u.now) user.entry) host.now) }
{
    match user {
        None => BString::from_slice(alloc, host),
        Some(user) => {
            let mut text = of_capacity(alloc, user.len() as u128 + host.len() as u128 + 1)?;
            text.extend_from_slice(user.as_bytes())?;
            text.push(b'@')?;
            text.extend_from_slice(host.as_bytes())?;
            Ok(BString::new(text))
        }
    }
}

/// Returns the command for the server's shell: the program, a space, and the quoted path.
pub(super) fn remote_command(
    alloc: Global,
    program: &[u8],
    path: &[u8],
) -> Result<BString, AllocError>
    ensures { IfOk result (λ t. bstring_bytes t ≡ spec.remote_command program.now path.now) }
{
    let mut text = of_capacity(alloc, program.len() as u128 + 3 + quoted_len(path))?;
    text.extend_from_slice(program)?;
    text.extend_from_slice(b" '")?;
    push_quoted(&mut text, path)?;
    text.push(b'\'')?;
    Ok(BString::new(text))
}

/// Returns an empty text with this capacity. A capacity that overflows counts as a failed allocation.
fn of_capacity(alloc: Global, len: u128) -> Result<Vec<u8>, AllocError>
    ensures { IfOk result (λ text. text.items ≡ []) }
{
    match usize::try_from(len) {
        Ok(len) => Vec::with_capacity(alloc, len),
        Err(_) => Err(AllocError),
    }
}

/// Whether the byte is written outside of the quotes, after a `\`.
fn is_unquoted(byte: u8) -> bool
    ensures { result ≡ is_unquoted byte }
{
    byte == b'\'' || byte == b'!'
}

/// The length of a quoted text, in bytes.
fn quoted_len(text: &[u8]) -> u128
    ensures bound { result ≤ 4 * 2 ^ 64 }
{
    let unquoted = text.iter().filter(|byte| is_unquoted(**byte)).count();
    text.len() as u128 + 3 * unquoted as u128
}

/// Appends a text with its quoted bytes, without the outer quotes.
fn push_quoted(out: &mut Vec<u8>, text: &[u8]) -> Result<(), AllocError>
    ensures { OnOk result (out.new.items ≡ out.old.items ++ flat_map quoted_byte text.now) }
{
    for byte in text {
        if is_unquoted(*byte) {
            out.extend_from_slice(&[b'\'', b'\\', *byte, b'\''])?;
        } else {
            out.push(*byte)?;
        }
    }
    Ok(())
}
