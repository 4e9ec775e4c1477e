//! The words of refusals of Secure Shell, which neither a contract nor a row specifies.

use git_rules::ssh::SshRefusal;
use std::test::Fail;

/// Refusals, and their words.
static REFUSALS: [(SshRefusal, &str); 8] = [
    (
        SshRefusal::NotSecureShell,
        "the location isn't reached by Secure Shell",
    ),
    (SshRefusal::Password, "Secure Shell takes no password"),
    (SshRefusal::ByteZero, "an argument can't hold byte 0"),
    (SshRefusal::OptionLikeUser, "the user looks like an option"),
    (SshRefusal::OptionLikeHost, "the host looks like an option"),
    (SshRefusal::AtSignInHost, "the host holds an `@`"),
    (
        SshRefusal::UrlLikeDestination,
        "the user or the host looks like a URL",
    ),
    (SshRefusal::OptionLikePath, "the path looks like an option"),
];

#[test]
fn refusals_in_words(rt: HostRuntime) -> Result<(), Fail> {
    for &(refusal, words) in REFUSALS.as_slice() {
        assert_eq!(rt; refusal.to_string(rt.alloc())?.as_str(), words);
    }
    Ok(())
}
