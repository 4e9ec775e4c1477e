//! URLs of submodules that Git's fsck refuses, for one of four reasons.

ghost use Rattle.std.specs.Prelude.{◌≡◌, ◌↔◌, ◌⊎◌, ◌&&◌, IsTrue, MatchOption};
ghost use Rattle.git_reads.specs.Internal.{LacksTextCut};
ghost use Rattle.git_syntax.specs.Bytes.{begins_by};
ghost use Rattle.git_reads.specs.Git.{git_decode};
ghost use Rattle.git_reads.specs.Credentials.{CutsText};
ghost use Rattle.git_modules.specs.SubmoduleUrls.{DecodesToLines, FindsHost, IsOwnUrl, IsRefusedUrl, IsRelative, LacksHost, ReplacesHost, has_feed, is_colon_or_slash, is_curl_scheme};
ghost use Rattle.git_modules.specs.SubmoduleInternal.{TestsAuthority, FindsCurl, TestsFeed, TestsHost, TestsInformation, TestsPieces, FindsSeparator, FindsStep};

use crate::submodules::is_separator;
use git_reads::credential::TextPieces;
use git_syntax::bytes::{after, cut, cut_at_mark, cut_before_path, is_free_of, starts_with_byte};
use percent_encoding::percent_decode;

/// Whether fsck refuses the URL of a submodule.
pub(crate) fn is_refused_url(url: &[u8]) -> bool
    ensures { IsTrue result ↔ IsRefusedUrl url.now }
{
    if starts_with_byte(url, b'-') {
        return true;
    }
    if is_of_lines(url) {
        return true;
    }
    if replaces_host(url) {
        return true;
    }
    lacks_host(url)
}

/// Whether Git decodes the URL, and the result has several lines.
fn is_of_lines(url: &[u8]) -> bool
    ensures { IsTrue result ↔ (IsRelative url.now ⊎ IsOwnUrl url.now) × DecodesToLines url.now }
{
    is_decoded(url) && decodes_to_lines(url)
}

/// Whether the URL is relative or of Git's own protocol.
fn is_decoded(url: &[u8]) -> bool
    ensures { IsTrue result ↔ IsRelative url.now ⊎ IsOwnUrl url.now }
{
    is_relative(url) || url.starts_with(b"git://")
}

/// Whether the URL begins with a step.
fn is_relative(url: &[u8]) -> bool
    ensures { IsTrue result ↔ IsRelative url.now }
{
    after_step(url).is_some()
}

/// The step that the URL begins with: whether it goes up, and the text after it.
fn after_step(url: &[u8]) -> Option<(bool, &[u8])>
    ensures { FindsStep url.now result }
{
    let suffix = after(url, b'.')?;
    if let Some(rest) = after(suffix, b'.') {
        let rest = after_separator(rest)?;
        return Some((true, rest));
    }
    let rest = after_separator(suffix)?;
    Some((false, rest))
}

/// The text after a leading separator.
fn after_separator(text: &[u8]) -> Option<&[u8]>
    ensures { FindsSeparator text.now result }
{
    match text {
        [first, rest @ ..] if is_separator(*first) => Some(rest),
        _ => None,
    }
}

/// Whether the decoded URL has several lines.
fn decodes_to_lines(url: &[u8]) -> bool
    ensures { IsTrue result ↔ DecodesToLines url.now }
{
    piece_has_feed(url)
}

/// Whether a `:` or a `/` follows the steps of the URL, at least one of which goes up.
fn replaces_host(url: &[u8]) -> bool
    ensures { IsTrue result ↔ ReplacesHost url.now }
{
    let mut up = false;
    let mut rest = url;
    while let Some((is_up, suffix)) = after_step(rest) {
        up = up || is_up;
        rest = suffix;
    }
    up && begins_by_colon_or_slash(rest)
}

/// Whether the text begins with a `:` or a `/`.
fn begins_by_colon_or_slash(text: &[u8]) -> bool
    ensures { result ≡ begins_by is_colon_or_slash text.now }
{
    match text {
        [] => false,
        [first, ..] => *first == b':' || *first == b'/',
    }
}

// ---- URLs for curl

/// Whether the URL is for curl, and the text for curl has no host, or has a line feed.
fn lacks_host(url: &[u8]) -> bool
    ensures { IsTrue result ↔ LacksHost url.now }
{
    match text_for_curl(url) {
        Some(text) => !finds_host(text),
        None => false,
    }
}

/// The text that Git would pass to the helper for curl.
fn text_for_curl(url: &[u8]) -> Option<&[u8]>
    ensures { FindsCurl url.now result }
{
    let (scheme, suffix) = cut(url, b':')?;
    if !is_curl_scheme(scheme) {
        return None;
    }
    if let Some(text) = after(suffix, b':') {
        return Some(text);
    }
    let rest = after(suffix, b'/')?;
    if starts_with_byte(rest, b'/') {
        Some(url)
    } else {
        None
    }
}

/// Whether the helper for curl serves the scheme.
fn is_curl_scheme(scheme: &[u8]) -> bool
    ensures { result ≡ is_curl_scheme scheme.now }
{
    scheme == b"http".as_slice()
        || scheme == b"https".as_slice()
        || scheme == b"ftp".as_slice()
        || scheme == b"ftps".as_slice()
}

/// Whether Git's credential code finds a host in the text, and no line feed.
fn finds_host(text: &[u8]) -> bool
    ensures { IsTrue result ↔ FindsHost text.now }
{
    match cut_text(text) {
        Some(pieces) => are_pieces_taken(pieces),
        None => false,
    }
}

/// The pieces of a text: the first `://` ends its protocol, and the first `/`, `?` or `#` its authority.
fn cut_text(text: &[u8]) -> Option<TextPieces<'_>>
    ensures { MatchOption result (LacksTextCut text.now)
        (λ it. CutsText text.now it.protocol.now it.authority.now it.suffix.now) }
{
    if !is_free_of(text, 0) {
        return None;
    }
    let (protocol, rest) = cut_at_mark(text)?;
    if protocol.is_empty() {
        return None;
    }
    let (authority, suffix) = cut_before_path(rest, true);
    Some(TextPieces {
        protocol,
        authority,
        suffix,
    })
}

/// Whether the pieces have a host, and no line feed.
fn are_pieces_taken(pieces: TextPieces<'_>) -> bool
    ensures { TestsPieces pieces.entry.protocol.now pieces.entry.authority.now
        pieces.entry.suffix.now result }
{
    let is_line = is_free_of(pieces.protocol, b'\n');
    let is_taken = is_authority_taken(pieces.authority);
    let has_feed = piece_has_feed(pieces.suffix);
    all_three(is_line, is_taken, !has_feed)
}

/// Whether all three hold.
fn all_three(first: bool, second: bool, third: bool) -> bool
    ensures { result ≡ ((first && second) && third) }
{
    first && second && third
}

/// Whether the authority has a host, and none of its parts has a line feed.
fn is_authority_taken(authority: &[u8]) -> bool
    ensures { TestsAuthority authority.now result }
{
    match cut(authority, b'@') {
        Some((information, named)) => {
            let has_feed = information_has_feed(information);
            is_host_taken(named) && !has_feed
        }
        None => is_host_taken(authority),
    }
}

/// Whether the host isn't empty, and has no line feed.
fn is_host_taken(named: &[u8]) -> bool
    ensures { TestsHost named.now result }
{
    let has_feed = piece_has_feed(named);
    !named.is_empty() && !has_feed
}

/// Whether a user, or a user and a password, has a line feed once decoded.
fn information_has_feed(information: &[u8]) -> bool
    ensures { TestsInformation information.now result }
{
    match cut(information, b':') {
        Some((user, password)) => {
            let is_in_user = piece_has_feed(user);
            let is_in_password = piece_has_feed(password);
            is_in_user || is_in_password
        }
        None => piece_has_feed(information),
    }
}

// ---- line feeds

/// Whether the decoded piece has a line feed. The text before its first colon counts as a scheme, and is not
/// decoded.
fn piece_has_feed(piece: &[u8]) -> bool
    ensures { TestsFeed piece.now result }
{
    match cut(piece, b':') {
        Some((front, rest)) => {
            let is_line = is_free_of(front, b'\n');
            !is_line || has_feed(rest)
        }
        None => has_feed(piece),
    }
}

/// Whether the decoded text has a line feed.
fn has_feed(text: &[u8]) -> bool
    ensures { result ≡ has_feed (git_decode text.now) }
{
    for byte in percent_decode(text) {
        if byte == b'\n' {
            return true;
        }
    }
    false
}
