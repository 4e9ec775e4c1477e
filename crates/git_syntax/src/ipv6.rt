//! IPv6 and IPv4 texts, either of which can be a host.

ghost use Rattle.git_syntax.specs.Addresses.{IsIpv4Text, IsIpv6Text};
ghost use Rattle.std.specs.Prelude.{IsTrue, ◌↔◌};

use std::net::{Ipv4Addr, Ipv6Addr};

/// Whether the text is eight groups of one to four hexadecimal digits joined by `:`. One `::` may replace one
/// or more groups that are zero, and an IPv4 text the last two groups (RFC 4291, section 2.2). Brackets and
/// zones are not part of it. Allocates nothing.
///
/// ```
/// fn needs_brackets(host: &str) -> bool {
///     is_ipv6(host) // `::1`, but neither `[::1]` nor `fe80::1%eth0`
/// }
/// ```
pub fn is_ipv6(text: &str) -> bool
    ensures { IsTrue result ↔ IsIpv6Text text.now }
{
    is_address(text.as_bytes())
}

/// Whether the bytes are an IPv6 text, as [`is_ipv6`] tests it.
#[tactic(auto, using(crate::proofs::Addresses::AddressReader::reads_addresses))]
pub fn is_address(text: &[u8]) -> bool
    ensures { IsTrue result ↔ IsIpv6Text text.now }
{
    Ipv6Addr::parse_ascii(text).is_ok()
}

/// Whether the text is four decimal numbers from 0 to 255, without leading zeros, joined by `.`.
#[tactic(auto, using(crate::proofs::Addresses::AddressReader::reads_dotted))]
pub fn is_dotted(text: &[u8]) -> bool
    ensures { IsTrue result ↔ IsIpv4Text text.now }
{
    Ipv4Addr::parse_ascii(text).is_ok()
}
