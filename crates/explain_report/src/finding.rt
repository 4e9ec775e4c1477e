//! The findings about a line for which a run may fail: a danger, a location that isn't settled, a refusal, a different
//! reading by Git, a transport that Git doesn't use.

ghost use Rattle.std.specs.Prelude.{◌≡◌, ◌↔◌, [], IsTrue, false, not, true};
ghost use Rattle.gix_url.specs.GitClass.{AgreesWithGit};
ghost use Rattle.gix_url.specs.Settled.{IsSettled};
ghost use Rattle.explain_report.specs.Findings as spec;

use crate::rules::transports::{Transport, Verdict};
use git_audit::danger::Danger;
use gix_url::Url;

/// A set of findings.
#[derive(Clone, Copy)]
pub struct Findings {
    /// A location has a danger.
    pub danger: bool,
    /// The text of a location is not read as the same location again, or the location has no text.
    pub unsettled: bool,
    /// A line is refused.
    pub refused: bool,
    /// Git isn't known to read the same in the text of a location.
    pub git_differs: bool,
    /// By the configuration, Git has no transport for a line or doesn't use it.
    pub policy: bool,
}

impl Findings {
    /// Returns the findings about a location that has these dangers.
    pub fn of_location(url: &Url, dangers: &[Danger]) -> Findings
        ensures danger { IsTrue result.danger ↔ ¬ (dangers.now ≡ []) }
        ensures unsettled { IsTrue result.unsettled ↔ ¬ IsSettled url.now }
        ensures git_differs { IsTrue result.git_differs ↔ ¬ AgreesWithGit url.now }
        ensures others { (result.refused ≡ false) × (result.policy ≡ false) }
    {
        Findings {
            danger: !dangers.is_empty(),
            unsettled: !url.is_settled(),
            refused: false,
            git_differs: !url.agrees_with_git(),
            policy: false,
        }
    }

    /// Returns the finding about a text that is refused.
    pub fn of_refused() -> Findings
        ensures { result ≡ record spec.none { refused = true } }
    {
        Findings {
            danger: false,
            unsettled: false,
            refused: true,
            git_differs: false,
            policy: false,
        }
    }

    /// Returns the finding about a transport, or about a text without one.
    pub fn of_transport(transport: Option<&Transport>) -> Findings
        ensures { result ≡ record spec.none { policy = not (spec.is_used transport.entry) } }
    {
        Findings::of_use(is_used(transport))
    }

    /// Returns the finding about a text, by whether Git has a transport for it and uses it.
    pub fn of_use(is_used: bool) -> Findings
        ensures { result ≡ record spec.none { policy = not is_used } }
    {
        Findings {
            danger: false,
            unsettled: false,
            refused: false,
            git_differs: false,
            policy: !is_used,
        }
    }

    /// Returns the empty set.
    pub fn none() -> Findings
        ensures { result ≡ spec.none }
    {
        Findings {
            danger: false,
            unsettled: false,
            refused: false,
            git_differs: false,
            policy: false,
        }
    }

    /// Returns all findings.
    pub fn all() -> Findings
        ensures { result ≡ spec.all }
    {
        Findings {
            danger: true,
            unsettled: true,
            refused: true,
            git_differs: true,
            policy: true,
        }
    }

    /// The names of the findings, and last the name of all of them.
    pub const NAMES: [&'static str; 6] = [
        "danger",
        "unsettled",
        "refused",
        "git-differs",
        "policy",
        "any",
    ];

    /// Returns the findings with this name, which are none if no finding has it.
    pub fn named(name: &str) -> Findings {
        let mut found = Findings::none();
        match name {
            "danger" => found.danger = true,
            "unsettled" => found.unsettled = true,
            "refused" => found.refused = true,
            "git-differs" => found.git_differs = true,
            "policy" => found.policy = true,
            "any" => return Findings::all(),
            _ => {}
        }
        found
    }

    /// Returns the findings in either set.
    pub fn union(self, other: Findings) -> Findings
        ensures { result ≡ spec.union self other }
    {
        Findings {
            danger: self.danger || other.danger,
            unsettled: self.unsettled || other.unsettled,
            refused: self.refused || other.refused,
            git_differs: self.git_differs || other.git_differs,
            policy: self.policy || other.policy,
        }
    }

    /// Whether the sets have a finding in common.
    pub fn meets(self, other: Findings) -> bool
        ensures { result ≡ spec.meets self other }
    {
        (self.danger && other.danger)
            || (self.unsettled && other.unsettled)
            || (self.refused && other.refused)
            || (self.git_differs && other.git_differs)
            || (self.policy && other.policy)
    }
}

/// Whether there is a transport, and Git uses it.
fn is_used(transport: Option<&Transport>) -> bool
    ensures { result ≡ spec.is_used transport.entry }
{
    match transport {
        Some(transport) => matches!(transport.permission, Verdict::Allowed),
        None => false,
    }
}
