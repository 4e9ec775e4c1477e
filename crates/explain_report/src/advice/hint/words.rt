//! The names and the sentences of hints.

use crate::advice::hint::Hint;

impl Hint {
    /// Returns the hint's name for programs.
    pub fn name(self) -> &'static str {
        match self {
            Hint::ColonForSlash => "colon_for_slash",
            Hint::NoScheme => "no_scheme",
            Hint::WindowsPath => "windows_path",
            Hint::CapitalScheme => "capital_scheme",
            Hint::CarriageReturn => "carriage_return",
            Hint::ByteOrderMark => "byte_order_mark",
            Hint::OuterBlank => "outer_blank",
            Hint::RunsCommand => "runs_command",
            Hint::HomeHere => "home_here",
            Hint::HomeThere => "home_there",
            Hint::StoredPassword => "stored_password",
            Hint::Unencrypted => "unencrypted",
            Hint::PastedCommand => "pasted_command",
            Hint::WebPage => "web_page",
            Hint::SlashForColon => "slash_for_colon",
            Hint::Quotes => "quotes",
            Hint::ScpPort => "scp_port",
            Hint::PortInBrackets => "port_in_brackets",
            Hint::OneSlash => "one_slash",
            Hint::NearScheme => "near_scheme",
            Hint::PackageScheme => "package_scheme",
            Hint::ShortName => "short_name",
            Hint::SchemeAfterUser => "scheme_after_user",
            Hint::Revision => "revision",
            Hint::HostAsUser => "host_as_user",
            Hint::MixedScripts => "mixed_scripts",
            Hint::Relative => "relative",
            Hint::RemoteName => "remote_name",
            Hint::SlashInPassword => "slash_in_password",
            Hint::Punycode => "punycode",
            Hint::SshPassword => "ssh_password",
            Hint::FileHost => "file_host",
            Hint::EscapedAt => "escaped_at",
            Hint::MissingColon => "missing_colon",
            Hint::TwoColons => "two_colons",
            Hint::SchemeTwice => "scheme_twice",
            Hint::EndOfSentence => "end_of_sentence",
            Hint::MarkdownLink => "markdown_link",
            Hint::PastedSetting => "pasted_setting",
            Hint::PastedRemote => "pasted_remote",
            Hint::WindowsShare => "windows_share",
            Hint::FileDrive => "file_drive",
            Hint::HiddenSecret => "hidden_secret",
            Hint::WriteInstead => "write_instead",
        }
    }

    /// Returns the hint in words, which contain no byte of the line. The URL of [`Hint::WriteInstead`] follows its
    /// words.
    pub fn sentence(self) -> &'static str {
        match self {
            Hint::ColonForSlash => {
                "a colon after the host of a URL begins a port: write / in its place, or user@host:path without a scheme"
            }
            Hint::NoScheme => {
                "it begins like the name of a host and is read as a path on this machine: write https:// before it if that host is meant"
            }
            Hint::WindowsPath => {
                "the letter before the colon is read as a host: paths of Windows are not known here"
            }
            Hint::CapitalScheme => {
                "capitals make it another scheme, here and for Git, which looks for a remote helper of that name: write it in small letters"
            }
            Hint::CarriageReturn => {
                "the line ends as lines of Windows do: remove the carriage return at its end, which is part of the location"
            }
            Hint::ByteOrderMark => {
                "the byte order mark at the beginning is part of the location: leave it out"
            }
            Hint::OuterBlank => {
                "the blank at the beginning or at the end is part of the location: leave it out"
            }
            Hint::RunsCommand => {
                "Git runs the address as a command on this machine, if its settings allow that"
            }
            Hint::HomeHere => {
                "a shell may replace the ~ before Git sees it; otherwise git fetch and git push look below a home folder, and git clone does not"
            }
            Hint::HomeThere => "the path begins in a home folder on the other machine",
            Hint::StoredPassword => {
                "the password stays in .git/config and in the history of the shell: use a credential helper"
            }
            Hint::Unencrypted => { "http sends everything unencrypted, passwords too: write https" }
            Hint::PastedCommand => {
                "the words of a command before a location are read as part of it: leave them out"
            }
            Hint::WebPage => {
                "it is the address of a web page about a part of a repository: leave out all after the repository"
            }
            Hint::SlashForColon => {
                "it is read as a path on this machine: write a colon in place of / after the host, or ssh:// before the user"
            }
            Hint::Quotes => "the quotes around it are part of the location: leave them out",
            Hint::ScpPort => {
                "no port can be written in this form, and the number begins the path: for a port write ssh://user@host:port/path"
            }
            Hint::PortInBrackets => {
                "Git alone takes the number in the brackets for a port: write ssh://user@host:port/path"
            }
            Hint::OneSlash => {
                "the word before the colon is read as a host: write :// after a scheme, and file:/// before a path of this machine"
            }
            Hint::NearScheme => {
                "Git looks for a remote helper of this scheme's name, which is one letter away from http, https, ssh, git or file"
            }
            Hint::PackageScheme => {
                "git+ and git:: before a URL are of package managers, and Git looks for a remote helper of that name: leave them out"
            }
            Hint::ShortName => {
                "Git has no short names of forges: the word before the colon is a host, unless url.*.insteadOf or ~/.ssh/config says otherwise"
            }
            Hint::SchemeAfterUser => {
                "the scheme comes first: write the user after ://, or leave the scheme out and write user@host:path"
            }
            Hint::Revision => {
                "Git takes no branch, tag or commit from a URL: leave it out, and pass it to git clone --branch or git checkout"
            }
            Hint::HostAsUser => {
                "the text before the @ is a user, though it looks like a host: the host begins after the @"
            }
            Hint::MixedScripts => {
                "a label of the host has letters of two scripts, some of which look alike: it may be another host than it seems"
            }
            Hint::Relative => {
                "the path is read from the folder in which Git runs, and in .gitmodules from the URL of the superproject"
            }
            Hint::RemoteName => {
                "one word is the name of a remote, if there is one of that name, and else a folder below the current one"
            }
            Hint::SlashInPassword => {
                "a / ends the host of a URL: in a user or a password write it as %2F"
            }
            Hint::Punycode => {
                "the host of HTTP is of ASCII characters alone: write it in Punycode, with xn-- before a label that has others"
            }
            Hint::SshPassword => {
                "Secure Shell takes no password: Git passes it on as a part of the user or of the host"
            }
            Hint::FileHost => {
                "Git ignores the host of a file URL, and opens the path on this machine"
            }
            Hint::EscapedAt => {
                "the @ before the host is written %40, which is read as part of the host or of the port: write @"
            }
            Hint::MissingColon => {
                "the colon after the scheme is missing, so it is read as a path on this machine: write ://"
            }
            Hint::TwoColons => {
                "two colons make the scheme the name of a remote helper, and the rest its address: write one"
            }
            Hint::SchemeTwice => {
                "the scheme is written twice, so the second one is read as a host: write it once"
            }
            Hint::EndOfSentence => {
                "the punctuation after .git is part of the path: leave it out"
            }
            Hint::MarkdownLink => {
                "it is a link of Markdown: write the text between its parentheses alone"
            }
            Hint::PastedSetting => { "it is a setting of Git: leave out its key and the =" }
            Hint::PastedRemote => {
                "it is a line that git remote -v prints: leave out the name before the location, and the word after it"
            }
            Hint::WindowsShare => {
                "it is read as a path on this machine that begins with backslashes: paths of Windows are not known here"
            }
            Hint::FileDrive => {
                "the letter of the drive is read as a host, which Git ignores: write file:/// before it"
            }
            Hint::HiddenSecret => {
                "a part that may be a secret is shown as redacted: keep passwords and tokens in a credential helper"
            }
            Hint::WriteInstead => {
                "write this URL of the same place, which fewer programs read otherwise:"
            }
        }
    }
}
