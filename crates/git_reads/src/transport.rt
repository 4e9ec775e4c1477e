//! The reading of a text by Git's own transports: protocol, user, host, port and path, or the reason for
//! which they read no place.
//!
//! The rules are those of Git 2.39.5 on Linux.

ghost use Rattle.std.specs.Prelude.{◌≡◌, ◌↔◌, ℕ, IfErr, IfOk, IsTrue, List, MatchOption, None, Option, option_map};
ghost use Rattle.git_syntax.specs.Bytes.{Holds};
ghost use Rattle.git_syntax.specs.Internal.Cuts.{url_mark};
ghost use Rattle.git_syntax.specs.Schemes.{scheme_of};
ghost use Rattle.git_syntax.specs.Authority.{unless_empty};
ghost use Rattle.git_reads.specs.Git.{GitReads, IsRemote, ReachesGit, ReachesSecure, ReadsInput, SecurePort, UserCut, from_tilde, on_this_machine};
ghost use Rattle.git_reads.specs.Unread.{GetsUrl, IsForeign, LacksReading, Unreads};
ghost use Rattle.git_reads.specs.Views.{git_reading, scheme_of_protocol};
ghost use Rattle.git_reads.specs.Transports.{BeginsBy, Fails, FailsToReach, GetsUrlBy, IsForeignFor, IsReadPath, IsUnreadPath, NamesHelper, ReachesBy, url_text};

use crate::decode::append_decoded;
use crate::place::{cut_place, host_and_port, past_brackets};
use crate::port::port_of;
use git_syntax::bytes::{cut, cut_at_mark, is_free_of, is_helper_name, last_cut, starts_with_byte};
use git_syntax::scheme::{KnownScheme, scheme_of};
use std::alloc::{AllocError, Global};

/// Git's own transports. [`reading`] has an example.
#[derive(Clone, Copy, PartialEq, Eq, Debug)]
pub enum Protocol {
    /// Secure Shell.
    Ssh,
    /// The protocol of `git://`.
    Git,
    /// A path of this machine.
    File,
}

/// The place that Git reads. A file has only a path. [`reading`] has an example.
#[derive(Clone, Copy)]
pub struct GitPlace<'a> {
    /// The transport.
    pub protocol: Protocol,
    /// The user that Secure Shell logs in as.
    pub user: Option<&'a [u8]>,
    /// The host, without brackets. An empty one is `None`.
    pub host: Option<&'a [u8]>,
    /// The port, if the text has one.
    pub port: Option<u16>,
    /// The path, decoded if the text is a URL.
    pub path: &'a [u8],
}

/// Why Git reads no place in a text. [`reading`] has an example.
#[derive(Clone, Copy, PartialEq, Eq, Debug)]
pub enum Unread {
    /// An allocation failed.
    Memory,
    /// Byte 0 ends the argument of a command.
    ByteZero,
    /// The text begins with `-`: Git reads it as an option.
    Option,
    /// Git passes the text to a remote helper.
    RemoteHelper,
    /// A local path begins with `~`: `git clone` uses it unchanged, while `git fetch` and `git push` expand the
    /// home folder.
    HomeOrHere,
    /// OpenSSH reads the word that Git passes to it as a URL.
    SecureShellUrl,
    /// Git, or Secure Shell, refuses the text.
    Refused,
}

impl From<AllocError> for Unread {
    ghost use Rattle.git_reads.specs.declared.transport.Unread.TheVariants.{Memory};

    ghost from_gives = { λ _ e. e ≡ Memory };

    fn from(_: AllocError) -> Unread {
        Unread::Memory
    }
}

/// The buffers of a reading, for the decoded text and for a host without its brackets. [`reading`] has an
/// example.
#[derive(Drop)]
pub struct Buffers {
    decoded: Vec<u8>,
    named: Vec<u8>,
}

impl Buffers {
    /// Returns two empty buffers. Allocates nothing.
    ///
    /// ```
    /// /// Whether one of Git's transports reads a place in a text.
    /// fn is_read(alloc: Global, text: &[u8]) -> bool {
    ///     let mut buffers = Buffers::new(alloc);
    ///     reading(text, &mut buffers).is_ok() // of `ssh://h/p`, but not of `ext::sh -c x`
    /// }
    /// ```
    pub fn new(alloc: Global) -> Buffers {
        Buffers {
            decoded: Vec::new(alloc),
            named: Vec::new(alloc),
        }
    }
}

/// Returns the place that Git reads in the text. Its fields are borrowed from the text and from the buffers,
/// which are overwritten. Allocates if a URL is decoded or a host has brackets, for each at most as many
/// bytes as the text has.
///
/// # Errors
///
/// [`Unread::Memory`] if an allocation fails. Every other error is the reason for which Git reads no place in
/// the text: a byte 0 takes precedence over all other reasons, and then a `-` at the front.
///
/// ```
/// /// The host that Git connects to.
/// fn host_of<'a>(text: &'a [u8], buffers: &'a mut Buffers) -> Option<&'a [u8]> {
///     // `Some(b"h")` of `ssh://u@h:22/p`, `None` of `/srv/p` and of `ext::sh -c x`
///     reading(text, buffers).ok()?.host
/// }
/// ```
pub fn reading<'a>(text: &'a [u8], buffers: &'a mut Buffers) -> Result<GitPlace<'a>, Unread>
    ensures read { IfOk result (λ it. GitReads text.now (git_reading it)) }
    ensures none { IfErr result (λ why. ¬ (why ≡ Unread.Memory) → LacksReading text.now) }
    ensures why { IfErr result (λ why. Unreads text.now why) }
{
    if !is_free_of(text, 0) {
        return Err(Unread::ByteZero);
    }
    if starts_with_byte(text, b'-') {
        return Err(Unread::Option);
    }
    if names_helper(text) {
        return Err(Unread::RemoteHelper);
    }
    match cut_at_mark(text) {
        Some((scheme, spelled)) => url(scheme, spelled, buffers),
        None => no_url(text, &mut buffers.named),
    }
}

// ---- texts

/// The reading of a URL.
fn url<'a>(scheme: &[u8], spelled: &[u8], buffers: &'a mut Buffers) -> Result<GitPlace<'a>, Unread>
    requires no_mark { ¬ Holds url_mark scheme.now }
    requires no_helper { ¬ NamesHelper (url_text scheme.now spelled.now) }
    ensures read { IfOk result (λ it. ReadsInput (url_text scheme.now spelled.now) (git_reading it)) }
    ensures why { IfErr result (Fails (url_text scheme.now spelled.now)) }
{
    let Some(protocol) = own_protocol(scheme) else {
        return Err(without_transport(scheme));
    };
    buffers.decoded.clear();
    append_decoded(&mut buffers.decoded, spelled)?;
    match cut_place(buffers.decoded.as_slice(), b'/') {
        Some((place, path)) => reach(protocol, place, path, &mut buffers.named),
        None => Err(Unread::Refused),
    }
}

/// The reading of the scp form, or of a local path.
fn no_url<'a>(text: &'a [u8], named: &'a mut Vec<u8>) -> Result<GitPlace<'a>, Unread>
    requires no_mark { ¬ Holds url_mark text.now }
    requires no_helper { ¬ NamesHelper text.now }
    ensures read { IfOk result (λ it. ReadsInput text.now (git_reading it)) }
    ensures why { IfErr result (Fails text.now) }
{
    if begins_by(text, b"rsync:") {
        return Err(Unread::Refused);
    }
    if !is_remote(text) {
        return local_path(past_brackets(text).1);
    }
    match cut_place(text, b':') {
        Some((place, rest)) => secure(place, from_tilde(rest.split_at(1).1), named),
        None => Err(Unread::Refused),
    }
}

/// The reading of a path of this machine.
fn local_path(path: &[u8]) -> Result<GitPlace<'_>, Unread>
    ensures read { IfOk result (λ it. IsReadPath path.now × (git_reading it ≡ on_this_machine path.now)) }
    ensures why { IfErr result (IsUnreadPath path.now) }
{
    match path {
        [] | [b'-', ..] => Err(Unread::Refused),
        [b'~', ..] => Err(Unread::HomeOrHere),
        _ => Ok(on_this_machine(path)),
    }
}

/// A place on this machine.
fn on_this_machine(path: &[u8]) -> GitPlace<'_>
    ensures { git_reading result ≡ on_this_machine path.now }
{
    GitPlace {
        protocol: Protocol::File,
        user: None,
        host: None,
        port: None,
        path,
    }
}

/// The transport, if a scheme names one of Git's own.
fn own_protocol(scheme: &[u8]) -> Option<Protocol>
    ensures { MatchOption result (IsForeign scheme.now) (λ known. scheme_of scheme.now ≡ scheme_of_protocol known) }
{
    match scheme_of(scheme) {
        KnownScheme::Ssh => Some(Protocol::Ssh),
        KnownScheme::Git => Some(Protocol::Git),
        KnownScheme::File => Some(Protocol::File),
        _ => None,
    }
}

/// Why a URL isn't read if its scheme is not one of Git's own: `rsync` belonged to a transport that was
/// removed, and a text that isn't a scheme names no helper.
fn without_transport(scheme: &[u8]) -> Unread
    ensures { IsForeignFor scheme.now result }
{
    if is_helper_name(scheme) && scheme != b"rsync".as_slice() {
        Unread::RemoteHelper
    } else {
        Unread::Refused
    }
}

/// Whether the text is `name::address`, also with an empty name.
fn names_helper(text: &[u8]) -> bool
    ensures { IsTrue result ↔ NamesHelper text.now }
{
    match cut(text, b':') {
        Some((name, address)) => {
            starts_with_byte(address, b':') && (name.is_empty() || is_helper_name(name))
        }
        None => false,
    }
}

/// Whether the text has a colon before any `/`.
fn is_remote(text: &[u8]) -> bool
    ensures { IsTrue result ↔ IsRemote text.now }
{
    match cut(text, b':') {
        Some((front, _)) => is_free_of(front, b'/'),
        None => false,
    }
}

/// Whether the text begins with the mark.
fn begins_by(text: &[u8], mark: &[u8]) -> bool
    ensures { IsTrue result ↔ BeginsBy mark.now text.now }
{
    text.starts_with(mark)
}

// ---- transports

/// The place that the transport reaches, from a place and a path in the text.
fn reach<'a>(
    protocol: Protocol,
    place: &'a [u8],
    path: &'a [u8],
    named: &'a mut Vec<u8>,
) -> Result<GitPlace<'a>, Unread>
    ensures read { IfOk result (λ it. ReachesBy (scheme_of_protocol protocol) place.now path.now (git_reading it)) }
    ensures why { IfErr result (FailsToReach place.now (ReachesBy (scheme_of_protocol protocol) place.now path.now)
        (GetsUrlBy (scheme_of_protocol protocol) place.now path.now)) }
{
    match protocol {
        Protocol::Ssh => secure(place, from_tilde(path), named),
        Protocol::Git => own(place, from_tilde(path), named),
        Protocol::File => Ok(on_this_machine(path)),
    }
}

/// The place that Secure Shell connects to: Git passes it a word, a port and a path.
fn secure<'a>(
    place: &'a [u8],
    path: &'a [u8],
    named: &'a mut Vec<u8>,
) -> Result<GitPlace<'a>, Unread>
    ensures read { IfOk result (λ it. ReachesSecure place.now path.now (git_reading it)) }
    ensures why { IfErr result (FailsToReach place.now (ReachesSecure place.now path.now) (GetsUrl place.now path.now)) }
{
    let (host, found) = host_and_port(place, named)?;
    let (word, port) = secure_port(host, found);
    if starts_with_byte(word, b'-') {
        return Err(Unread::Refused);
    }
    if starts_with_byte(path, b'-') {
        return Err(Unread::Refused);
    }
    if begins_by(word, b"ssh://") {
        return Err(Unread::SecureShellUrl);
    }
    match cut_user(word) {
        Some((user, host)) => Ok(GitPlace {
            protocol: Protocol::Ssh,
            user,
            host: unless_empty(host),
            port,
            path,
        }),
        None => Err(Unread::Refused),
    }
}

/// The place that Git's own protocol connects to: it has no user, and neither its place nor its path has a line
/// feed.
fn own<'a>(place: &'a [u8], path: &'a [u8], named: &'a mut Vec<u8>) -> Result<GitPlace<'a>, Unread>
    ensures read { IfOk result (λ it. ReachesGit place.now path.now (git_reading it)) }
    ensures why { IfErr result (FailsToReach place.now (ReachesGit place.now path.now) ⊥) }
{
    if !is_free_of(place, b'\n') {
        return Err(Unread::Refused);
    }
    if !is_free_of(path, b'\n') {
        return Err(Unread::Refused);
    }
    let (host, port) = host_and_port(place, named)?;
    Ok(GitPlace {
        protocol: Protocol::Git,
        user: None,
        host: unless_empty(host),
        port,
        path,
    })
}

/// The word and the port for Secure Shell: if no port follows the host, one may follow the first colon of the
/// text in its brackets.
fn secure_port(named: &[u8], found: Option<u16>) -> (&[u8], Option<u16>)
    ensures { SecurePort named.now found result.0.now result.1 }
{
    match found {
        Some(port) => (named, Some(port)),
        None => port_inside(named),
    }
}

/// The word and the port of a host that no port follows: one may follow its first colon.
fn port_inside(named: &[u8]) -> (&[u8], Option<u16>)
    ensures { SecurePort named.now None result.0.now result.1 }
{
    match cut(named, b':') {
        Some((word, digits)) => match port_of(digits) {
            Some(port) => (word, Some(port)),
            None => (named, None),
        },
        None => (named, None),
    }
}

/// The user, if there is one, and the host: Secure Shell cuts its word at the last `@`, and refuses a word in
/// which nothing precedes that.
fn cut_user(word: &[u8]) -> Option<(Option<&[u8]>, &[u8])>
    ensures { MatchOption result ((user : Option (List ℕ)) (host : List ℕ) → ¬ UserCut word.now user host)
        (λ it. UserCut word.now (option_map (λ t. t.now) it.0) it.1.now) }
{
    match last_cut(word, b'@') {
        None => Some((None, word)),
        Some(([], _)) => None,
        Some((user, host)) => Some((Some(user), host)),
    }
}

/// The host, unless it is empty.
fn unless_empty(host: &[u8]) -> Option<&[u8]>
    ensures { option_map (λ t. t.now) result ≡ unless_empty host.now }
{
    if host.is_empty() { None } else { Some(host) }
}

/// The path from a `~` that is its second byte; if there is none, the whole path.
fn from_tilde(path: &[u8]) -> &[u8]
    ensures { result.now ≡ from_tilde path.now }
{
    match path {
        [_, b'~', ..] => path.split_at(1).1,
        _ => path,
    }
}
