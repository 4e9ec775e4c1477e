//! Numbers as Git reads them in a configuration.

ghost use Rattle.std.specs.Prelude.{◌≡◌, ◌≤◌, drop};
ghost use Rattle.std.specs.List.{prefix_len};
ghost use Rattle.std.specs.Char.{digit_value, is_digit};
ghost use Rattle.std.specs.Str.Parse.{digits_value};
ghost use Rattle.git_rules.specs.Numbers.{fitting, number_in, number_of, size_of, unit_of, without_sign};
ghost use Rattle.git_syntax.specs.Bytes.{is_c_space};

use git_syntax::bytes::starts_with_byte;

/// The maximum of C's `int`, as which Git reads most numbers of a configuration. [`read_number`] has an
/// example.
pub const INT_MAX: u64 = 2_147_483_647;

/// The maximum of C's 64-bit `ssize_t`, as which Git reads `http.postBuffer`. [`read_number`] has an example
/// of its use with [`INT_MAX`].
pub const SIZE_MAX: u64 = 9_223_372_036_854_775_807;

/// The absolute value of a number as Git reads it, or `None` if the text isn't a number or the value exceeds
/// `greatest`.
///
/// A number is optional white space (as in C), an optional sign, digits, and an optional unit; nothing may follow.
/// The digits are hexadecimal after `0x`, octal after a `0`, and decimal otherwise. The units `k`, `m` and `g`, in
/// either case, multiply by 2^10, 2^20 and 2^30. git-config(1) defines integers so, and Git 2.39.5 reads them so
/// (`git_parse_signed` in `config.c`): its limit is [`INT_MAX`], or [`SIZE_MAX`] for a size. A key without a value
/// has no text; Git stops there.
///
/// ```
/// /// Whether Git takes a value for the number of requests at once.
/// fn is_number(value: &[u8]) -> bool {
///     read_number(value, INT_MAX).is_some() // of `5`, `-0x10` and `2k`, but not of `2g`, `1 ` and an empty text
/// }
/// ```
pub fn read_number(text: &[u8], greatest: u64) -> Option<u64>
    ensures { result ≡ number_of greatest text.now }
{
    let rest = text.split_at(blank_len(text)).1;
    read_size(without_sign(rest), greatest)
}

/// The number of bytes of white space at the start of the text.
fn blank_len(text: &[u8]) -> usize
    ensures { result ≡ prefix_len is_c_space text.now }
{
    text.iter().take_while(|byte| is_blank(**byte)).count()
}

/// Whether the byte is white space.
fn is_blank(byte: u8) -> bool
    ensures { result ≡ is_c_space byte }
{
    (9..=13).contains(&byte) || byte == b' '
}

/// The text without a leading sign.
fn without_sign(text: &[u8]) -> &[u8]
    ensures { result.now ≡ without_sign text.now }
{
    match text {
        [b'+' | b'-', rest @ ..] => rest,
        _ => text,
    }
}

/// The absolute value of a number without a sign.
fn read_size(text: &[u8], greatest: u64) -> Option<u64>
    ensures { result ≡ size_of greatest text.now }
{
    if let [b'0', b'x' | b'X', rest @ ..] = text {
        return read_in(16, rest, greatest);
    }
    if starts_with_byte(text, b'0') {
        return read_in(8, text, greatest);
    }
    read_in(10, text, greatest)
}

/// The value of a number in this radix: its leading digits, and its unit.
fn read_in(radix: u64, text: &[u8], greatest: u64) -> Option<u64>
    requires least { 1 ≤ radix }
    requires most { radix ≤ 16 }
    ensures { result ≡ number_in greatest radix text.now }
{
    let (digits, rest) = text.split_at(digit_len(radix, text));
    if digits.is_empty() {
        return None;
    }
    let unit = read_unit(rest)?;
    let value = read_digits(radix, digits, greatest)?;
    let size = u128::from(value) * u128::from(unit);
    if size > u128::from(greatest) {
        return None;
    }
    Some(value * unit)
}

/// The number of digits of this radix at the start of the text.
fn digit_len(radix: u64, text: &[u8]) -> usize
    ensures { result ≡ prefix_len (λ b. is_digit b radix) text.now }
{
    text.iter()
        .take_while(|byte| digit_value(**byte) < radix)
        .count()
}

/// The value of a digit or a letter, and 36 for any other byte.
fn digit_value(byte: u8) -> u64
    ensures { result ≡ digit_value byte }
{
    match byte {
        b'0'..=b'9' => u64::from(byte - b'0'),
        b'A'..=b'Z' => u64::from(byte - b'A') + 10,
        b'a'..=b'z' => u64::from(byte - b'a') + 10,
        _ => 36,
    }
}

/// The factor of the unit that the text spells.
fn read_unit(text: &[u8]) -> Option<u64>
    ensures { result ≡ unit_of text.now }
{
    match text {
        [] => Some(1),
        [b'k' | b'K'] => Some(1024),
        [b'm' | b'M'] => Some(1_048_576),
        [b'g' | b'G'] => Some(1_073_741_824),
        _ => None,
    }
}

/// The value of the digits, unless it exceeds `greatest`.
fn read_digits(radix: u64, digits: &[u8], greatest: u64) -> Option<u64>
    requires least { 1 ≤ radix }
    requires most { radix ≤ 16 }
    ensures { result ≡ fitting greatest (digits_value radix digits.now) }
{
    let mut value: u64 = 0;
    for byte in digits {
        let more = u128::from(value) * u128::from(radix) + u128::from(digit_value(*byte));
        if more > u128::from(greatest) {
            return None;
        }
        value = value * radix + digit_value(*byte);
    }
    Some(value)
}
