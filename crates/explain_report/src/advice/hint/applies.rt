//! The conditions of hints, by `specs/HintRules.antt`.

ghost use Rattle.std.specs.Prelude.{◌≡◌, option_map};
ghost use Rattle.explain_report.specs.HintRules as spec;
ghost use Rattle.explain_report.specs.HostNames.{is_host_name, is_name_of_service, is_user_and_host};
ghost use Rattle.explain_report.specs.Marks.{some_passes};
ghost use Rattle.explain_report.specs.Scripts.{is_mixed};
ghost use Rattle.explain_report.specs.Slips.{is_drive};

use crate::advice::hint::Hint;
use crate::advice::host_name::{is_host_name, is_mixed, is_name_of_service, is_user_and_host};
use crate::advice::pasted;
use crate::advice::reading::Reading;
use crate::advice::slip::{self, place};
use crate::advice::web_page::is_page;
use crate::form::Form;
use crate::text::secret::has_secret;

impl Hint {
    /// Whether the hint applies to a line.
    pub(super) fn applies(self, line: &[u8], reading: Option<&Reading<'_>>) -> bool
        ensures { result ≡ spec.applies line.now (option_map (λ it. it.now) reading.entry) self }
    {
        match reading {
            None => self.is_in_refused(line) || self.is_in_bytes(line),
            Some(reading) => {
                self.is_beside(reading) || self.is_in_read(line, reading) || self.is_in_bytes(line)
            }
        }
    }

    /// Whether the hint is about another text or about a hidden part, and applies to the reading.
    fn is_beside(self, reading: &Reading<'_>) -> bool
        ensures { result ≡ spec.is_beside self reading.now }
    {
        match self {
            Hint::WriteInstead => reading.has_instead,
            Hint::HiddenSecret => reading.has_hidden && !reading.has_password_with_hint(),
            _ => false,
        }
    }

    /// Whether the hint is about the bytes of a line, however they are read, and applies to these.
    fn is_in_bytes(self, line: &[u8]) -> bool
        ensures { result ≡ spec.is_in_bytes self line.now }
    {
        match self {
            Hint::CapitalScheme => slip::has_capital_scheme(line),
            Hint::CarriageReturn => line.ends_with(b"\r"),
            Hint::ByteOrderMark => line.starts_with(b"\xef\xbb\xbf"),
            Hint::OuterBlank => has_outer_blank(line),
            Hint::PastedCommand => pasted::begins_with_command(line),
            Hint::MarkdownLink => pasted::is_markdown_link(line),
            Hint::PastedSetting => pasted::is_setting(line),
            Hint::PastedRemote => pasted::is_listed_remote(line),
            Hint::Quotes => pasted::is_quoted(line),
            Hint::PortInBrackets => place::has_port_in_brackets(line),
            Hint::OneSlash => slip::has_one_slash(line),
            Hint::NearScheme => slip::has_near_scheme(line),
            Hint::PackageScheme => {
                slip::begins_with_package_scheme(line) && !slip::has_two_colons(line)
            }
            Hint::SchemeAfterUser => slip::has_scheme_after_user(line),
            Hint::EscapedAt => place::has_escaped_at(line),
            Hint::TwoColons => slip::has_two_colons(line),
            Hint::SchemeTwice => slip::has_scheme_twice(line),
            _ => false,
        }
    }

    /// Whether the hint is about refused lines, and applies to this one.
    fn is_in_refused(self, line: &[u8]) -> bool
        ensures { result ≡ spec.is_in_refused self line.now }
    {
        match self {
            Hint::ColonForSlash => {
                place::has_colon_for_slash(line)
                    && !place::has_slash_in_password(line)
                    && !place::has_escaped_at(line)
            }
            Hint::SlashInPassword => place::has_slash_in_password(line),
            Hint::Punycode => place::has_wide_host_of_web(line),
            Hint::MixedScripts => is_mixed_if_some(place::host_of_refused(line)),
            Hint::HiddenSecret => has_secret(line),
            _ => false,
        }
    }

    /// Whether the hint is about the reading of a line, and applies to this one.
    fn is_in_read(self, line: &[u8], reading: &Reading<'_>) -> bool
        ensures { result ≡ spec.is_in_form reading.now.form self line.now reading.now }
    {
        match reading.form {
            Form::Local => self.is_in_path(line),
            Form::Scp => self.is_in_scp(line, reading) || self.is_in_remote(line, reading),
            Form::Url => self.is_in_url(reading) || self.is_in_remote(line, reading),
            Form::RemoteHelper => self.is_in_helper(reading),
        }
    }

    /// Whether the hint is about local paths, and applies to this one.
    fn is_in_path(self, path: &[u8]) -> bool
        ensures { result ≡ spec.is_in_path self path.now }
    {
        match self {
            Hint::NoScheme => is_host_if_some(slip::first_element(path)),
            Hint::HomeHere => path.starts_with(b"~"),
            Hint::SlashForColon => is_user_if_some(slip::first_element(path)),
            Hint::Relative => path == b"..".as_slice() || path.starts_with(b"../"),
            Hint::RemoteName => slip::is_remote_name(path),
            Hint::MissingColon => slip::lacks_colon(path),
            Hint::WindowsShare => path.starts_with(b"\\\\"),
            _ => false,
        }
    }

    /// Whether the hint is about the scp form, and applies to this line.
    fn is_in_scp(self, line: &[u8], reading: &Reading<'_>) -> bool
        ensures { result ≡ spec.is_in_scp self line.now reading.now }
    {
        match self {
            Hint::WindowsPath => place::begins_with_drive(line),
            Hint::ScpPort => place::begins_with_port(reading.path),
            Hint::ShortName => reading.has_short_name(),
            _ => false,
        }
    }

    /// Whether the hint is about URLs, and applies to this one.
    fn is_in_url(self, reading: &Reading<'_>) -> bool
        ensures { result ≡ spec.is_in_url self reading.now }
    {
        match self {
            Hint::StoredPassword => reading.is_of_web() && reading.has_password,
            Hint::Unencrypted => {
                reading.is_of("http") && (reading.user.is_some() || reading.has_password)
            }
            Hint::WebPage => reading.is_of_web() && is_page(reading.host, reading.path),
            Hint::SshPassword => reading.is_of("ssh") && reading.has_password,
            Hint::FileHost => reading.is_of_file_with_host() && !is_drive_if_some(reading.host),
            Hint::FileDrive => reading.is_of("file") && is_drive_if_some(reading.host),
            _ => false,
        }
    }

    /// Whether the hint is about URLs and the scp form, and applies to this line.
    fn is_in_remote(self, line: &[u8], reading: &Reading<'_>) -> bool
        ensures { result ≡ spec.is_in_remote self line.now reading.now }
    {
        match self {
            Hint::EndOfSentence => pasted::ends_like_sentence(line),
            Hint::HomeThere => reading.is_of_shell_or_git() && reading.path.starts_with(b"~"),
            Hint::Revision => reading.names_revision(),
            Hint::HostAsUser => is_service_if_some(reading.user),
            Hint::MixedScripts => is_mixed_part(reading.host),
            _ => false,
        }
    }

    /// Whether the hint is about the remote helper `ext`, and applies to this reading.
    fn is_in_helper(self, reading: &Reading<'_>) -> bool
        ensures { result ≡ spec.is_in_helper self reading.now }
    {
        match self {
            Hint::RunsCommand => reading.is_of("ext"),
            _ => false,
        }
    }
}

/// Whether the first or the last byte is a space or a tab.
fn has_outer_blank(line: &[u8]) -> bool
    ensures { result ≡ spec.has_outer_blank line.now }
{
    line.starts_with(b" ")
        || line.starts_with(b"\t")
        || line.ends_with(b" ")
        || line.ends_with(b"\t")
}

/// Whether the text is present, and is a host name.
fn is_host_if_some(text: Option<&[u8]>) -> bool
    ensures { result ≡ some_passes is_host_name (option_map (λ it. it.now) text.entry) }
{
    match text {
        Some(text) => is_host_name(text),
        None => false,
    }
}

/// Whether the text is present, and is a user, `@` and a host name.
fn is_user_if_some(text: Option<&[u8]>) -> bool
    ensures { result ≡ some_passes is_user_and_host (option_map (λ it. it.now) text.entry) }
{
    match text {
        Some(text) => is_user_and_host(text),
        None => false,
    }
}

/// Whether the host is present, and a label of it has letters of two scripts.
fn is_mixed_if_some(host: Option<&[u8]>) -> bool
    ensures { result ≡ some_passes is_mixed (option_map (λ it. it.now) host.entry) }
{
    match host {
        Some(host) => is_mixed(host),
        None => false,
    }
}

/// Whether the host is present, and a label of it has letters of two scripts.
fn is_mixed_part(host: Option<&str>) -> bool
    ensures { result ≡ spec.part_passes is_mixed host.entry }
{
    match host {
        Some(host) => is_mixed(host.as_bytes()),
        None => false,
    }
}

/// Whether the host is present, and is the letter of a drive and a colon.
fn is_drive_if_some(host: Option<&str>) -> bool
    ensures { result ≡ spec.part_passes is_drive host.entry }
{
    match host {
        Some(host) => place::is_drive(host),
        None => false,
    }
}

/// Whether the user is present, and is the host name of a service.
fn is_service_if_some(user: Option<&str>) -> bool
    ensures { result ≡ spec.part_passes is_name_of_service user.entry }
{
    match user {
        Some(user) => is_name_of_service(user.as_bytes()),
        None => false,
    }
}
