//! Equality of bytes, a word at a time.
//!
//! The result is that of `==`, which takes a call and a search in groups of 32. That is slow for the hosts
//! and paths of locations, most of which have 8 to 32 bytes.

ghost use Rattle.std.specs.Prelude.{◌≡◌, ◌≤◌, ◌-◌, bytes_eq, drop, length, take};
ghost use Rattle.std.specs.Int.{from_le_bytes, to_le_bytes, w64};

/// Whether both are the same bytes. From eight to 32 bytes are compared in place.
#[inline(always)]
pub(crate) fn bytes_equal(a: &[u8], b: &[u8]) -> bool
    ensures { result ≡ bytes_eq a.now b.now }
{
    let length = a.len();
    if length != b.len() {
        return false;
    }
    if length < 8 {
        return few_equal(a, b);
    }
    if length <= 16 {
        return ends_equal(a, b);
    }
    if length <= 32 {
        return halves_equal(a, b);
    }
    many_equal(a, b)
}

/// Whether both are the same bytes, less than eight. It is a separate function, so that callers stay small.
#[inline(never)]
fn few_equal(a: &[u8], b: &[u8]) -> bool
    ensures { result ≡ bytes_eq a.now b.now }
{
    a == b
}

/// Whether both are the same bytes, more than 32.
#[inline(never)]
fn many_equal(a: &[u8], b: &[u8]) -> bool
    ensures { result ≡ bytes_eq a.now b.now }
{
    a == b
}

/// Whether both are the same 8 to 16 bytes: the first eight and the last eight, which may overlap, are all of
/// them.
#[inline(always)]
fn ends_equal(a: &[u8], b: &[u8]) -> bool
    requires { (8 ≤ length a.now) × (length a.now ≤ 16) × (length a.now ≡ length b.now) }
    ensures { result ≡ bytes_eq a.now b.now }
{
    words_equal(first_eight(a), first_eight(b)) && words_equal(last_eight(a), last_eight(b))
}

/// Whether both are the same 16 to 32 bytes: the first 16 and the last 16.
#[inline(always)]
fn halves_equal(a: &[u8], b: &[u8]) -> bool
    requires { (16 ≤ length a.now) × (length a.now ≤ 32) × (length a.now ≡ length b.now) }
    ensures { result ≡ bytes_eq a.now b.now }
{
    let last = a.len() - 16;
    ends_equal(a.split_at(16).0, b.split_at(16).0)
        && ends_equal(a.split_at(last).1, b.split_at(last).1)
}

#[inline(always)]
fn first_eight(bytes: &[u8]) -> &[u8; 8]
    requires { 8 ≤ length bytes.now }
    ensures { result.now ≡ take 8 bytes.now }
{
    bytes.first_chunk().unwrap()
}

#[inline(always)]
fn last_eight(bytes: &[u8]) -> &[u8; 8]
    requires { 8 ≤ length bytes.now }
    ensures { result.now ≡ drop (length bytes.now - 8) bytes.now }
{
    bytes.last_chunk().unwrap()
}

/// Whether both are the same eight bytes.
#[inline(always)]
fn words_equal(a: &[u8; 8], b: &[u8; 8]) -> bool
    ensures { result ≡ bytes_eq a.now b.now }
{
    word(a) == word(b)
}

/// The number with these bytes. No other bytes have the same number.
#[inline(always)]
fn word(bytes: &[u8; 8]) -> u64
    ensures number { result ≡ from_le_bytes w64 bytes.now }
    ensures bytes { to_le_bytes w64 result ≡ bytes.now }
{
    u64::from_le_bytes(*bytes)
}
