//! The test for IPv6 texts, from `git_syntax`.

pub use git_syntax::ipv6::is_ipv6;
