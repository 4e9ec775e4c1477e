//! The kinds of findings: for each its name, its words, its level, and the condition for which it makes a run fail.

ghost use Rattle.std.specs.Prelude.{◌≡◌};
ghost use Rattle.explain_audit.specs.Kinds as spec;

use explain_report::finding::Findings;
use git_audit::danger::Danger;
use git_modules::resolve::ResolveError;
use git_modules::submodules::refusal::Refused;
use git_modules::submodules::risk::Risk;
use serde::Serialize;
use std::alloc::{AllocError, Global};
use std::fmt::Write;

/// A kind of finding.
#[derive(Clone, Copy)]
pub enum Kind {
    /// A text that Git uses has a danger.
    Danger(Danger),
    /// Git's fsck refuses an entry of a submodule.
    Fsck(Refused),
    /// An entry of a submodule is dangerous or broken, although fsck accepts it.
    Risk(Risk),
    /// Git uses no path for a submodule.
    NoPath,
    /// Git uses no URL for a submodule.
    NoUrl,
    /// Two submodules have the same path.
    SamePath,
    /// The URL of a submodule is relative, and resolves to another host than the superproject's.
    ParentHost,
    /// The URL of a submodule is relative, and the superproject's URL isn't given.
    NoParent,
    /// The URL of a submodule is relative, and Git doesn't resolve it.
    Unresolved(ResolveError),
    /// A text is not read as a location.
    NoLocation,
    /// The text of a location is not read as the same location again.
    Unsettled,
    /// Git isn't known to read the same in the text of a location.
    GitDiffers,
    /// By the configuration, Git has no transport for a text or doesn't use it.
    Policy,
}

/// The level of a finding, as in SARIF.
#[derive(Clone, Copy, Serialize)]
#[serde(rename_all = "lowercase")]
pub enum Level {
    Error,
    Warning,
    Note,
}

impl Kind {
    /// All kinds, in the order of their rules. Git's reasons for not resolving a URL are one kind.
    pub const ALL: [Kind; 31] = [
        Kind::Danger(Danger::Command),
        Kind::Danger(Danger::OptionLikeUser),
        Kind::Danger(Danger::OptionLikeHost),
        Kind::Danger(Danger::OptionLikePath),
        Kind::Danger(Danger::Password),
        Kind::Danger(Danger::Token),
        Kind::Danger(Danger::HostCharacter),
        Kind::Danger(Danger::LineEnd),
        Kind::Danger(Danger::OtherHost),
        Kind::Danger(Danger::MisreadHost),
        Kind::Fsck(Refused::Name),
        Kind::Fsck(Refused::Url),
        Kind::Fsck(Refused::Path),
        Kind::Fsck(Refused::Update),
        Kind::Risk(Risk::AbsolutePath),
        Kind::Risk(Risk::PathUpwards),
        Kind::Risk(Risk::PathIntoGit),
        Kind::Risk(Risk::OptionAsBranch),
        Kind::Risk(Risk::OptionAsUpdate),
        Kind::Risk(Risk::ControlCharacter),
        Kind::Risk(Risk::NoValue),
        Kind::NoPath,
        Kind::NoUrl,
        Kind::SamePath,
        Kind::ParentHost,
        Kind::NoParent,
        Kind::Unresolved(ResolveError::NothingLeft),
        Kind::NoLocation,
        Kind::Unsettled,
        Kind::GitDiffers,
        Kind::Policy,
    ];

    /// Returns the condition for which this finding makes a run fail.
    pub fn findings(self) -> Findings
        ensures { result ≡ spec.findings_of self }
    {
        let mut found = Findings::none();
        match self {
            Kind::Danger(_) | Kind::Fsck(_) | Kind::Risk(_) => found.danger = true,
            Kind::SamePath | Kind::ParentHost => found.danger = true,
            Kind::NoPath | Kind::NoUrl => found.refused = true,
            Kind::NoLocation | Kind::Unresolved(_) => found.refused = true,
            Kind::Unsettled | Kind::NoParent => found.unsettled = true,
            Kind::GitDiffers => found.git_differs = true,
            Kind::Policy => found.policy = true,
        }
        found
    }

    /// Returns the name of the condition for which this finding makes a run fail.
    pub fn class(self) -> &'static str {
        match self {
            Kind::Danger(_) | Kind::Fsck(_) | Kind::Risk(_) => "danger",
            Kind::SamePath | Kind::ParentHost => "danger",
            Kind::NoPath | Kind::NoUrl | Kind::NoLocation | Kind::Unresolved(_) => "refused",
            Kind::Unsettled | Kind::NoParent => "unsettled",
            Kind::GitDiffers => "git-differs",
            Kind::Policy => "policy",
        }
    }

    /// Returns the kind's name.
    pub fn name(self) -> &'static str {
        match self {
            Kind::Danger(danger) => danger.name(),
            Kind::Fsck(refused) => refused.as_str(),
            Kind::Risk(risk) => risk_name(risk),
            Kind::NoPath => "no_path",
            Kind::NoUrl => "no_url",
            Kind::SamePath => "same_path",
            Kind::ParentHost => "parent_host",
            Kind::NoParent => "no_parent",
            Kind::Unresolved(_) => "unresolved",
            Kind::NoLocation => "refused",
            Kind::Unsettled => "unsettled",
            Kind::GitDiffers => "git-differs",
            Kind::Policy => "policy",
        }
    }

    /// Returns the kind's index in [`Kind::ALL`].
    pub fn index(self) -> usize {
        let all = Kind::ALL;
        let name = self.name();
        all.iter().position(|kind| kind.name() == name).unwrap_or(0)
    }

    /// Returns the kind's level.
    pub fn level(self) -> Level
        ensures { result ≡ spec.level_of self }
    {
        match self {
            Kind::Danger(_) | Kind::Fsck(_) | Kind::Risk(_) => Level::Error,
            Kind::NoPath | Kind::NoUrl | Kind::SamePath | Kind::ParentHost => Level::Error,
            Kind::NoLocation | Kind::Unresolved(_) => Level::Error,
            Kind::Unsettled | Kind::NoParent | Kind::Policy => Level::Warning,
            Kind::GitDiffers => Level::Note,
        }
    }

    /// Returns the kind's words, which contain no byte of a text.
    pub fn words(self, alloc: Global) -> Result<String, AllocError> {
        let mut words = String::new(alloc);
        match self {
            Kind::Danger(danger) => words.push_str(danger.words())?,
            Kind::Fsck(refused) => write!(words, "{refused}")?,
            Kind::Risk(risk) => write!(words, "{risk}")?,
            Kind::Unresolved(error) => write!(words, "Git doesn't resolve it: {error}")?,
            other => words.push_str(other.own_words())?,
        }
        Ok(words)
    }

    /// The words of a kind that this crate itself finds.
    fn own_words(self) -> &'static str {
        match self {
            Kind::NoPath => "Git has no path for the submodule",
            Kind::NoUrl => "Git has no URL for the submodule",
            Kind::SamePath => "another submodule has the same path",
            Kind::ParentHost => "it leads to another host than that of the superproject",
            Kind::NoParent => "it is relative: --parent says what it is resolved against",
            Kind::NoLocation => "it is read as no location",
            Kind::Unsettled => "its own text is read otherwise",
            Kind::GitDiffers => "Git isn't known to read the same in it",
            Kind::Policy => "Git doesn't use the transport for it",
            _ => "it is dangerous",
        }
    }
}

/// The name of a risk.
fn risk_name(risk: Risk) -> &'static str {
    match risk {
        Risk::AbsolutePath => "absolute_path",
        Risk::PathUpwards => "path_upwards",
        Risk::PathIntoGit => "path_into_git",
        Risk::OptionAsBranch => "option_as_branch",
        Risk::OptionAsUpdate => "option_as_update",
        Risk::ControlCharacter => "control_character",
        Risk::NoValue => "no_value",
    }
}

/// Returns the names of these findings, for which a run may fail.
pub fn names_of(alloc: Global, found: Findings) -> Result<Vec<&'static str>, AllocError> {
    let mut names = Vec::new(alloc);
    if found.danger {
        names.push("danger")?;
    }
    if found.unsettled {
        names.push("unsettled")?;
    }
    if found.refused {
        names.push("refused")?;
    }
    if found.git_differs {
        names.push("git-differs")?;
    }
    if found.policy {
        names.push("policy")?;
    }
    Ok(names)
}
