//! The transport that Git uses for a text.
//!
//! No location is parsed here: [`transport`](super::transport) returns the transport of a parsed location. The
//! result is a name exactly if the text has that transport, and an error exactly if the text lacks a transport for
//! that reason (`specs/TextTransports.antt`, `law_text_transport`).

ghost use Rattle.std.specs.Prelude.{◌≡◌, ◌↔◌, IfErr, IfOk, IsTrue, MatchOption, codes, false, true};
ghost use Rattle.git_syntax.specs.Bytes.{is_helper_name};
ghost use Rattle.git_reads.specs.Git.{IsNoUrl, IsRemote};
ghost use Rattle.git_reads.specs.Transports.{BeginsBy, NamesHelper};
ghost use Rattle.git_rules.specs.TextTransports.{EachDecided, HasOrLacks, HasTransport, LacksTransport, OneReason, OneTransport, TransportOfLocation, TransportOfReading, UsesTransport, scheme_transport};

use git_laws::laws::law_git;
use git_syntax::bytes::{cut, cut_at_mark, is_free_of, is_helper_name, starts_with_byte};
use git_syntax::scheme::{KnownScheme, scheme_of};
use git_syntax::text::as_text;
use thiserror::Error;

/// The reason why Git uses no transport for a text. If several apply, the first of these is returned.
///
/// ```
/// /// Whether a text is a location that older versions of Git fetched from.
/// fn is_outdated(why: NoTransport) -> bool {
///     why == NoTransport::Rsync
/// }
/// ```
#[derive(Clone, Copy, Debug, PartialEq, Eq, Error)]
pub enum NoTransport {
    /// The text contains a byte 0, which ends the argument of a command.
    #[error("byte 0 ends the argument of a command")]
    ByteZero,
    /// The text begins with `-`: it may be taken for an option.
    #[error("a text that begins with `-` may be taken for an option")]
    OptionLike,
    /// The text begins with `rsync:`, but not with `rsync::`. Git no longer has such a transport.
    #[error("Git has no transport for `rsync:` any more")]
    Rsync,
    /// The text contains `://`, and the text before the first one is not a scheme: a letter or a digit, then
    /// letters, digits, `+`, `-` and `.` (ASCII). So it is neither a transport nor a remote helper.
    #[error("the text before `://` is neither a transport nor a remote helper")]
    UnknownScheme,
}

/// Returns the name of the transport that Git uses for a text, or of the remote helper that it runs.
///
/// `text` is the repository that Git is called with: an argument, or the URL of a remote after it is rewritten
/// ([`Rewrites`](crate::rewrite::Rewrites)). Git looks the name up in `protocol.<name>.allow` and
/// `GIT_ALLOW_PROTOCOL`, as [`Protocols::permission`](super::Protocols::permission) does. The name depends only on
/// the form of the text:
///
/// 1. `name::address` uses the remote helper `name`, even if that is `ssh` or `rsync`. `::address` uses a helper
///    with an empty name. Git looks the empty name up too; if it is allowed, Git finds no helper.
/// 2. `scheme://` uses the transport of its scheme: `ssh` for `git+ssh://` and `ssh+git://`, and otherwise the
///    scheme, which is case-sensitive. `SSH://` uses a remote helper of that name.
/// 3. Any other text uses `ssh` if a colon comes before each `/`, and otherwise `file`.
///
/// [`transport`](super::transport) returns the transport of a location as this library reads it. It returns `file`
/// for `[evil:22]/x:p` and `[::1]/:p`; this function returns `ssh`, as Git does. Both return the same name for the
/// text of a location for which `agrees_with_git` is true ([`law_text_transport`]).
///
/// This function returns a name for some texts that Git refuses before it looks the name up: a URL of `ssh`, `git`
/// or `file` without a path, an empty text, and a path that begins with `-`. `git clone` first looks for a
/// repository in the folder that the whole text names, and uses `file` if there is one, whatever the form of the
/// text. The name of a remote is not resolved. `remote.<name>.vcs`, which selects another helper, is ignored.
///
/// The rules are those of `protocol.allow` in git-config(1) and of gitremote-helpers(7). If these leave a
/// case open, Git 2.39.5 decides.
///
/// # Errors
///
/// - [`NoTransport::ByteZero`]: the text contains a byte 0.
/// - [`NoTransport::OptionLike`]: the text begins with `-`.
/// - [`NoTransport::Rsync`]: the text begins with `rsync:`, but not with `rsync::`. Git refuses it.
/// - [`NoTransport::UnknownScheme`]: the text contains `://` and doesn't name a helper (1.), and the text before
///   the first `://` is not a scheme. Git refuses it.
///
/// ```
/// /// Whether Git may fetch from a text that the user didn't type.
/// fn may_fetch(text: &[u8], entries: &[Entry<'_>]) -> bool {
///     let protocols = Protocols {
///         entries,
///         allow_list: None,
///         from_user: Some(b"0"),
///     };
///     match transport_of(text) {
///         Ok(name) => protocols.permission(name).is_allowed(), // `[evil:22]/x:p` is for `ssh`
///         Err(_) => false,                                     // `rsync://h/p` is refused by Git
///     }
/// }
/// ```
pub fn transport_of(text: &[u8]) -> Result<&str, NoTransport>
    ensures named { IfOk result (λ name. HasTransport text.now name.now) }
    ensures none { IfErr result (λ why. LacksTransport text.now why) }
{
    if !is_free_of(text, 0) {
        return Err(NoTransport::ByteZero);
    }
    if starts_with_byte(text, b'-') {
        return Err(NoTransport::OptionLike);
    }
    if let Some(name) = helper_name(text) {
        return Ok(name);
    }
    if begins_by_rsync(text) {
        return Err(NoTransport::Rsync);
    }
    match cut_at_mark(text) {
        Some((scheme, _)) => by_scheme(scheme),
        None => Ok(by_colon(text)),
    }
}

/// The name of the remote helper before the `::` of a text. It may be empty.
fn helper_name(text: &[u8]) -> Option<&str>
    ensures { MatchOption result (¬ NamesHelper text.now) (λ name. UsesTransport text.now name.now) }
{
    let (name, address) = cut(text, b':')?;
    if !starts_with_byte(address, b':') {
        return None;
    }
    if name.is_empty() {
        return Some("");
    }
    if !is_helper_name(name) {
        return None;
    }
    Some(as_text(name))
}

/// Whether the text begins with `rsync:`.
fn begins_by_rsync(text: &[u8]) -> bool
    ensures { IsTrue result ↔ BeginsBy (codes "rsync:") text.now }
{
    text.starts_with(b"rsync:")
}

/// The transport of a URL, by its scheme.
fn by_scheme(scheme: &[u8]) -> Result<&str, NoTransport>
    ensures named { IfOk result (λ name. (is_helper_name scheme.now ≡ true) × (name.now ≡ scheme_transport scheme.now)) }
    ensures none { IfErr result (λ why. (is_helper_name scheme.now ≡ false) × (why ≡ NoTransport.UnknownScheme)) }
{
    if !is_helper_name(scheme) {
        return Err(NoTransport::UnknownScheme);
    }
    match scheme_of(scheme) {
        KnownScheme::Ssh => Ok("ssh"),
        _ => Ok(as_text(scheme)),
    }
}

/// The transport of a text that isn't a URL and names no helper.
fn by_colon(text: &[u8]) -> &'static str
    requires { IsNoUrl text.now }
    ensures { UsesTransport text.now result.now }
{
    if is_remote(text) { "ssh" } else { "file" }
}

/// Whether the text has a colon before any `/`.
fn is_remote(text: &[u8]) -> bool
    ensures { IsTrue result ↔ IsRemote text.now }
{
    match cut(text, b':') {
        Some((front, _)) => is_free_of(front, b'/'),
        None => false,
    }
}

/// Each text has one transport or one reason why it lacks one. The transport is that of Git's reading of the text.
///
/// - `one`: Git uses at most one transport for a text, so [`transport_of`] returns its name.
/// - `one_reason`: a text lacks a transport for at most one reason.
/// - `apart`: no text has both a transport and a reason why it lacks one.
/// - `each`: each text has a transport or such a reason.
/// - `read`: if Git reads a place in a text ([`reading`](git_reads::transport::reading)), the transport of the text
///   is that of the place. So the policy is looked up for the transport that connects.
/// - `located`: the text of a location for which `agrees_with_git` is true has the transport that
///   [`transport`](super::transport) returns for the location.
pub fn law_text_transport()
    ensures one { OneTransport }
    ensures one_reason { OneReason }
    ensures apart { HasOrLacks }
    ensures each { EachDecided }
    ensures read { TransportOfReading }
    ensures located { TransportOfLocation }
{
    law_git();
}
