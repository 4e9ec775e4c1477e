//! The reading of a line, with the facts that hints need.

ghost use Rattle.std.specs.Prelude.{◌≡◌, not, option_map};
ghost use Rattle.std.specs.List.{list_any};
ghost use Rattle.explain_report.specs.HintRules as spec;
ghost use Rattle.explain_report.specs.Marks.{is_among, is_empty};
ghost use Rattle.explain_report.specs.Revisions.{has_revision, is_of_revision, some_is_of_revision};

use crate::form::Form;
use crate::location_report::Report;
use crate::marks::{holds, is_among};
use crate::path::{Components, Field};
use gix_url::Url;

/// The reading of a line, with the facts that hints need.
#[derive(Clone, Copy)]
pub struct Reading<'a> {
    pub form: Form,
    /// The name of the scheme, or of the remote helper.
    pub scheme: &'a str,
    pub user: Option<&'a str>,
    pub has_password: bool,
    pub host: Option<&'a str>,
    /// The path, decoded.
    pub path: &'a [u8],
    /// Whether there is a fragment, or a field of the query that names a revision.
    pub has_revision: bool,
    /// Whether there is a URL of the same place that fewer programs read differently.
    pub has_instead: bool,
    /// Whether a part of the line may be a secret, and is hidden.
    pub has_hidden: bool,
}

impl<'b> Reading<'b> {
    /// Returns the reading of a location.
    pub fn of(
        url: &'b Url,
        report: &'b Report<'_>,
        has_instead: bool,
        has_hidden: bool,
    ) -> Reading<'b> {
        Reading {
            form: report.form,
            scheme: report.scheme,
            user: report.user,
            has_password: report.password.is_some(),
            host: report.host,
            path: url.path.as_bytes(),
            has_revision: has_revision(&report.components),
            has_instead,
            has_hidden,
        }
    }

    /// Whether the scheme is one of HTTP.
    pub(crate) fn is_of_web(&self) -> bool
        ensures { result ≡ spec.is_of_web self.now }
    {
        is_among(self.scheme.as_bytes(), &["http", "https"])
    }

    /// Whether the scheme is that of Secure Shell or of `git://`.
    pub(crate) fn is_of_shell_or_git(&self) -> bool
        ensures { result ≡ spec.is_of_shell_or_git self.now }
    {
        is_among(self.scheme.as_bytes(), &["ssh", "git"])
    }

    /// Whether the scheme is this one.
    pub(crate) fn is_of(&self, scheme: &str) -> bool
        ensures { result ≡ spec.is_of scheme.now self.now }
    {
        self.scheme.as_bytes() == scheme.as_bytes()
    }

    /// Whether there is a password that another hint is about.
    pub(crate) fn has_password_with_hint(&self) -> bool
        ensures { result ≡ spec.has_password_with_hint self.now }
    {
        self.has_password && (self.is_of_web() || self.is_of("ssh"))
    }

    /// Whether it is a file, and has a host.
    pub(crate) fn is_of_file_with_host(&self) -> bool
        ensures { result ≡ spec.is_of_file_with_host self.now }
    {
        self.is_of("file") && is_some_text(self.host)
    }

    /// Whether a revision is named in a place that Git doesn't read one from.
    pub(crate) fn names_revision(&self) -> bool
        ensures { result ≡ spec.names_revision self.now }
    {
        if self.is_of_shell_or_git() {
            return holds(self.path, b".git#") || holds(self.path, b".git?");
        }
        self.is_of_web() && self.has_revision
    }

    /// Whether the host is the short name of a forge, and the path is that of a repository there.
    pub(crate) fn has_short_name(&self) -> bool
        ensures { result ≡ spec.has_short_name self.now }
    {
        is_short_name(self.host) && self.user.is_none() && !self.path.starts_with(b"/")
    }
}

/// Whether the part is present and isn't empty.
fn is_some_text(part: Option<&str>) -> bool
    ensures { result ≡ spec.part_passes (λ text. not (is_empty text)) part.entry }
{
    match part {
        Some(text) => !text.is_empty(),
        None => false,
    }
}

/// Whether the host is the short name of a forge.
fn is_short_name(host: Option<&str>) -> bool
    ensures { result ≡ spec.part_passes (is_among spec.short_names) host.entry }
{
    match host {
        Some(host) => is_among(
            host.as_bytes(),
            &[
                "github",
                "gitlab",
                "bitbucket",
                "gist",
                "codeberg",
                "sourcehut",
            ],
        ),
        None => false,
    }
}

/// Whether there is a fragment, or a field that names a revision.
fn has_revision(components: &Components<'_>) -> bool
    ensures { result ≡ has_revision components.now }
{
    components.fragment.is_some() || some_is_of_revision(&components.query)
}

/// Whether there are fields, and one of them names a revision.
fn some_is_of_revision(fields: &Option<Vec<Field>>) -> bool
    ensures { result ≡ some_is_of_revision (option_map (λ it. it.items) fields.now) }
{
    match fields {
        Some(fields) => one_is_of_revision(fields.as_slice()),
        None => false,
    }
}

/// Whether one of the fields names a revision.
fn one_is_of_revision(fields: &[Field]) -> bool
    ensures { result ≡ list_any is_of_revision fields.now }
{
    fields.iter().any(|field| is_of_revision(field))
}

/// Whether the field names a revision.
fn is_of_revision(field: &Field) -> bool
    ensures { result ≡ is_of_revision field.now }
{
    is_among(
        field.name.as_str().as_bytes(),
        &["ref", "rev", "tag", "branch", "commit", "version"],
    )
}
