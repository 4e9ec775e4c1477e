//! The law that the contract of [`credentials_for`](crate::credentials::credentials_for) determines the result.

ghost use Rattle.git_rules.specs.CredentialLaws.{HelpersApply, OneUse};

/// A request and the entries of a configuration determine the settings that Git uses. Each helper that Git calls is
/// the value of an entry that applies to the request; Git never calls a helper whose entry applies only to other
/// requests.
pub fn law_credentials()
    ensures one_use { OneUse }
    ensures apply { HelpersApply }
{}
