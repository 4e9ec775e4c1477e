//! The law that the computed test for IPv6 texts agrees with their definition.

ghost use Rattle.git_syntax.specs.Safeguards.{DecidesAddresses};

/// Exactly the IPv6 texts pass the test that the definition of a location's text applies to its host.
///
/// That definition has to be computable, so it uses a test on bytes; an IPv6 text is defined by a relation on
/// groups. For a host that is known to be an address, or known not to be one, this law implies how it is
/// written.
pub fn law_address_test()
    ensures decides { DecidesAddresses }
{}
