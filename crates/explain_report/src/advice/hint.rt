//! Hints about likely mistakes in a location that is typed or pasted: a closed list, in which each hint has a name and
//! a sentence.
//!
//! A hint depends on the bytes of a line and on its location, and shows neither. [`find`] returns the hints that apply
//! by `specs/HintRules.antt`.

ghost use Rattle.std.specs.Prelude.{◌≡◌, IfOk, option_map};
ghost use Rattle.std.specs.List.{filter};
ghost use Rattle.explain_report.specs.HintRules as spec;

mod applies;
mod words;

use crate::advice::reading::Reading;
use serde::Serialize;
use std::alloc::{AllocError, Global};

/// A likely mistake. If several hints apply, they are listed in this order.
///
/// Below, a *host name* is two or more labels separated by `.`. A label is letters, digits and `-`. The last label is
/// two or more letters, and isn't `git`, in which the names of bare repositories end.
#[derive(Clone, Copy, Serialize)]
#[serde(rename_all = "snake_case")]
pub enum Hint {
    /// Refused: a URL of `ssh`, `git`, `http` or `https` with a host without brackets, one `:`, and a letter or `~`
    /// after it, unless [`Hint::SlashInPassword`] or [`Hint::EscapedAt`] applies.
    ColonForSlash,
    /// A local path that begins with a host name, `/` and any byte.
    NoScheme,
    /// The scp form, and the line begins with a letter, `:`, and either `\` or a `/` that no `~` follows.
    WindowsPath,
    /// Before its first `://` the line has the name of a transport of Git, with at least one capital letter.
    CapitalScheme,
    /// The last byte is 13.
    CarriageReturn,
    /// The first bytes are EF BB BF.
    ByteOrderMark,
    /// The first or the last byte is a space or a tab.
    OuterBlank,
    /// The remote helper `ext`.
    RunsCommand,
    /// A local path that begins with `~`.
    HomeHere,
    /// Secure Shell or `git://`, with a path that is read as one that begins with `~`.
    HomeThere,
    /// HTTP, with a password.
    StoredPassword,
    /// HTTP without encryption, with a user or a password.
    Unencrypted,
    /// The line begins with a command of Git that takes a location, and a space. A prompt may precede it: `$`, `%`, `#`
    /// or `>`, and a space.
    PastedCommand,
    /// HTTP, and the path before any `?` or `#` is that of a page by [`is_page`].
    WebPage,
    /// A local path that begins with a user of letters, digits, `_`, `.` and `-`, then `@`, a host name, `/` and any
    /// byte.
    SlashForColon,
    /// The first and the last byte are both `"`, both `'` or both `` ` ``, or they are `<` and `>`.
    Quotes,
    /// The scp form, with a path that begins with one to five digits and `/`.
    ScpPort,
    /// Not a URL: the brackets before the first `]:` contain a host, `:` and digits, and are at the front or after an
    /// `@`.
    PortInBrackets,
    /// Before its first `:/` the line has the name of a transport of Git other than `git`, and no `/` follows.
    OneSlash,
    /// Before its first `://` the line has letters and digits that aren't a transport of Git, but become `ssh`, `git`,
    /// `http`, `https` or `file` if one byte is added, removed or replaced, or two neighbours are swapped.
    NearScheme,
    /// The line begins with `git+http://`, `git+https://`, `git+file://`, `git+git://` or `git::`, unless
    /// [`Hint::TwoColons`] applies.
    PackageScheme,
    /// The scp form without a user, the host `github`, `gitlab`, `bitbucket`, `gist`, `codeberg` or `sourcehut`,
    /// and a path that doesn't begin with `/`.
    ShortName,
    /// Before its first `://` the line has a user as in [`Hint::SlashForColon`], `@` and the name of a transport of
    /// Git.
    SchemeAfterUser,
    /// HTTP with a fragment, or with a field `ref`, `rev`, `tag`, `branch`, `commit` or `version` in its query;
    /// or Secure Shell or `git://`, with `.git#` or `.git?` in the path.
    Revision,
    /// A URL or the scp form, with a user that is a host name and ends like the host of a service.
    HostAsUser,
    /// A label of the host has an ASCII letter and a Greek, Cyrillic, Armenian or Cherokee one. The host of a refused
    /// URL is in the text between `://` and the next `/`: it begins after the last `@` and ends before the next `:`.
    MixedScripts,
    /// A local path that is `..` or begins with `../`.
    Relative,
    /// A local path of letters, digits, `_` and `-` only that doesn't begin with `-`.
    RemoteName,
    /// Refused: a URL of `ssh`, `git`, `http` or `https`, with a `:` and no `@` before the first `/`, and an `@` after
    /// it. At least one byte and then a `/` follow the last `@`.
    SlashInPassword,
    /// Refused: a URL of `http` or `https` with a byte beyond ASCII in its host, as in [`Hint::MixedScripts`].
    Punycode,
    /// A URL of `ssh` with a password.
    SshPassword,
    /// A URL of `file` with a host, unless [`Hint::FileDrive`] applies.
    FileHost,
    /// A URL of `ssh`, `git`, `http` or `https`, with a `%40` and no `@` before the first `/`, `?` or `#`, and at least
    /// one byte between the last `%40` and there.
    EscapedAt,
    /// A local path that has the name of a transport of Git before its first `//`.
    MissingColon,
    /// Before its first `:://` the line has the name of a transport of Git.
    TwoColons,
    /// Before its first `://`, and between that and the next one, the line has the name of a transport of Git.
    SchemeTwice,
    /// A URL or the scp form, with `.git` and one or more of `,`, `;`, `)` and `.` at the end.
    EndOfSentence,
    /// The line begins with `[`, ends with `)`, and has `](` in it.
    MarkdownLink,
    /// Before its first `=` the line has `url` or `pushurl` in any letter case, alone or at the end of a key of
    /// `remote.` or `submodule.`. White space around it is ignored.
    PastedSetting,
    /// The line ends with ` (fetch)` or ` (push)`.
    PastedRemote,
    /// A local path that begins with two backslashes.
    WindowsShare,
    /// A URL of `file` with a host of one letter and `:`.
    FileDrive,
    /// A part of the line is hidden, unless [`Hint::StoredPassword`] or [`Hint::SshPassword`] applies.
    HiddenSecret,
    /// There is a URL of the same place that fewer programs read differently.
    WriteInstead,
}

/// Returns the hints that apply to a line. `reading` is `None` if the line is refused.
pub fn find(
    alloc: Global,
    line: &[u8],
    reading: Option<&Reading<'_>>,
) -> Result<Vec<Hint>, AllocError>
    ensures { IfOk result (λ found. found.items
        ≡ filter (spec.applies line.now (option_map (λ it. it.now) reading.entry)) spec.every_hint) }
{
    let all = Hint::ALL;
    all.iter()
        .copied()
        .filter(|hint| hint.applies(line, reading))
        .collect(alloc)
}

impl Hint {
    /// All hints, in their order.
    pub const ALL: [Hint; 44] = [
        Hint::ColonForSlash,
        Hint::NoScheme,
        Hint::WindowsPath,
        Hint::CapitalScheme,
        Hint::CarriageReturn,
        Hint::ByteOrderMark,
        Hint::OuterBlank,
        Hint::RunsCommand,
        Hint::HomeHere,
        Hint::HomeThere,
        Hint::StoredPassword,
        Hint::Unencrypted,
        Hint::PastedCommand,
        Hint::WebPage,
        Hint::SlashForColon,
        Hint::Quotes,
        Hint::ScpPort,
        Hint::PortInBrackets,
        Hint::OneSlash,
        Hint::NearScheme,
        Hint::PackageScheme,
        Hint::ShortName,
        Hint::SchemeAfterUser,
        Hint::Revision,
        Hint::HostAsUser,
        Hint::MixedScripts,
        Hint::Relative,
        Hint::RemoteName,
        Hint::SlashInPassword,
        Hint::Punycode,
        Hint::SshPassword,
        Hint::FileHost,
        Hint::EscapedAt,
        Hint::MissingColon,
        Hint::TwoColons,
        Hint::SchemeTwice,
        Hint::EndOfSentence,
        Hint::MarkdownLink,
        Hint::PastedSetting,
        Hint::PastedRemote,
        Hint::WindowsShare,
        Hint::FileDrive,
        Hint::HiddenSecret,
        Hint::WriteInstead,
    ];
}
