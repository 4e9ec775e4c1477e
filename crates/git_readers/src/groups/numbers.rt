//! The four numbers at the front of a host.

ghost use Rattle.std.specs.Prelude.{◌≡◌, ◌<◌, IfSome, length, nat_le, option_map};
ghost use Rattle.git_syntax.specs.Bytes.{dot};
ghost use Rattle.git_readers.specs.Groups as spec;
ghost use Rattle.git_readers.specs.Readers.{cut_first};

use crate::groups::cuts::{at_first, begins_with_digit};
use crate::host::are_digits;

/// The four numbers that begin a host, if a name follows them.
pub(super) fn numbers_of(host: &[u8]) -> Option<&[u8]>
    ensures { option_map (λ t. t.now) result ≡ spec.before_rest host.now (spec.after_numbers host.now) }
{
    let rest = after_number(after_number(after_number(after_number(host)?)?)?)?;
    Some(host.split_at(host.len() - rest.len() - 1).0)
}

/// The text that follows a number of an IPv4 address and a dot.
fn after_number(text: &[u8]) -> Option<&[u8]>
    ensures found { option_map (λ t. t.now) result ≡ spec.after_number_cut (cut_first dot text.now) }
    ensures shorter { IfSome result (λ rest. length rest.now < length text.now) }
{
    match at_first(text, b'.') {
        None => None,
        Some((label, rest)) => { if is_number(label) { Some(rest) } else { None } }
    }
}

/// Whether the label is one to three digits.
fn is_number(label: &[u8]) -> bool
    ensures { result ≡ spec.is_number label.now }
{
    begins_with_digit(label) && are_digits(label) && is_short(label)
}

/// Whether the label has at most three bytes.
fn is_short(label: &[u8]) -> bool
    ensures { result ≡ nat_le (length label.now) 3 }
{
    label.len() <= 3
}
