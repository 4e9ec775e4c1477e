//! Classes of bytes, by a table with the flags of each byte.

ghost use Rattle.std.specs.Prelude.{◌≡◌};
ghost use Rattle.std.specs.List.{list_all};
ghost use Rattle.git_readers.specs.Unambiguous as spec;

/// The flag of a byte of the path of a URL.
const PATH: u8 = 1;

/// The flag of a byte of a path in the scp form.
const SCP: u8 = 2;

/// The flag of an unreserved byte.
const WORD: u8 = 4;

/// A digit for each byte. Its low three bits are the flags above.
static CLASS: [u8; 256] = *b"\
    00000000000000000000000000000000\
    01001010111337737777777777100300\
    17777777777777777777777777700007\
    07777777777777777777777777700070\
    00000000000000000000000000000000\
    00000000000000000000000000000000\
    00000000000000000000000000000000\
    00000000000000000000000000000000";

/// Whether the byte is a letter, a digit, or a mark of the path of a URL.
#[tactic(auto, using(crate::proofs::PlainBytes::path_class))]
fn is_path_byte(byte: u8) -> bool
    ensures { result ≡ spec.is_path_byte byte }
{
    CLASS[byte as usize] & PATH != 0
}

/// Whether the byte is a letter, a digit, or a mark of a path in the scp form.
#[tactic(auto, using(crate::proofs::PlainBytes::scp_class))]
fn is_scp_byte(byte: u8) -> bool
    ensures { result ≡ spec.is_scp_byte byte }
{
    CLASS[byte as usize] & SCP != 0
}

/// Whether the byte is a letter, a digit, `-`, `.`, `_` or `~`.
#[tactic(auto, using(crate::proofs::PlainBytes::word_class))]
fn is_unreserved(byte: u8) -> bool
    ensures { result ≡ spec.is_unreserved byte }
{
    CLASS[byte as usize] & WORD != 0
}

/// Whether each byte is one of the path of a URL.
pub(crate) fn are_path_bytes(path: &[u8]) -> bool
    ensures { result ≡ list_all spec.is_path_byte path.now }
{
    // A loop without an early exit is compiled to fewer than four instructions a byte.
    let mut all = true;
    for byte in path {
        all &= is_path_byte(*byte);
    }
    all
}

/// Whether each byte is one of a path in the scp form.
pub(crate) fn are_scp_bytes(path: &[u8]) -> bool
    ensures { result ≡ list_all spec.is_scp_byte path.now }
{
    let mut all = true;
    for byte in path {
        all &= is_scp_byte(*byte);
    }
    all
}

/// Whether each byte is an unreserved one.
pub(crate) fn are_unreserved(text: &[u8]) -> bool
    ensures { result ≡ list_all spec.is_unreserved text.now }
{
    let mut all = true;
    for byte in text {
        all &= is_unreserved(*byte);
    }
    all
}
