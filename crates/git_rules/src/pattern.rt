//! Patterns of places, as in `credential.<url>.*` and `http.<url>.*`, and the best match of several patterns.
//!
//! `place` returns the place of a location, `entries` picks the best entry of a configuration, and `settings`
//! collects all entries that Git uses. Only `settings` allocates.

ghost use Rattle.std.specs.Prelude.{◌≡◌, ◌<◌, ◌↔◌, ◌∷◌, ◌++◌, ℕ, List, [], IsTrue, MatchOption, true, length, option_map};
ghost use Rattle.git_rules.specs.NormalFlaws.{NormalizesIn};
ghost use Rattle.git_rules.specs.PatternLaws.{PickedGoesToOwn};
ghost use Rattle.git_rules.specs.Patterns as spec;
ghost use Rattle.git_rules.specs.Patterns.{HasRank, IsBelow, IsBest, IsBetter, IsLower, Matches, MatchesHost, MatchesLabel, MatchesPath, MatchesUser, RanksFor, labels_of, rank_of};

pub mod entries;
pub(crate) mod other_host;
pub mod place;
pub mod settings;

use crate::normal::{NormalError, NormalUrl};
use git_syntax::bytes::{before, cut, starts_with_byte};
use std::marker::Model;

/// A pattern of places, as the `<url>` of `credential.<url>.*` and `http.<url>.*` (git-config(1)): a URL in its
/// normal form, whose host may contain `*` as a label.
///
/// It matches a place if all of these hold:
///
/// - The schemes are equal, and so are the ports; a missing port is the scheme's default port.
/// - The user of the place is that of the pattern, if the pattern has one. The password is ignored.
/// - The hosts have equally many labels, each ended by a `.` or by the end of the host, and each label of the
///   pattern is `*` or equal to the label at its position. So `*` matches one whole label, even an empty one;
///   within a longer label it matches only itself, which no host contains. A `.` at the end of a host adds no
///   label.
/// - The path of the place equals the path of the pattern without one trailing `/`, or continues it with a `/`.
///   Only whole segments match; query and fragment are compared unchanged. [`UrlPattern::parse_in`] has an
///   example.
#[derive(Drop)]
pub struct UrlPattern<'a> {
    /// The normal form.
    url: NormalUrl<'a>,
}

impl<'a> Model for UrlPattern<'a> {
    ghost use Rattle.git_rules.specs.Normal.{NormalPlace};

    ghost Value = { NormalPlace };

    ghost view = { λ p. p.url };
}

impl<'a> UrlPattern<'a> {
    /// Returns the pattern that the text spells, as [`NormalUrl::parse_in`] reads it, with `*` allowed in the host.
    ///
    /// `buffer` needs three bytes for each byte of the text, and one more. A text that isn't a URL, such as
    /// `example.com`, isn't a pattern. [`NormalUrl::parse_in`] describes the contents of the buffer after an
    /// error.
    ///
    /// # Errors
    ///
    /// [`NormalError::NoRoom`] if the buffer is too short. Every other error is the reason why the text has no
    /// normal form; Git then uses no entry of `http.*` with this text.
    ///
    /// ```
    /// /// Whether a pattern stands for a place, each in a buffer of its own.
    /// fn stands_for(pattern: &[u8], buffer: &mut [u8], place: &NormalUrl<'_>) -> bool {
    ///     match UrlPattern::parse_in(pattern, buffer) {
    ///         Ok(pattern) => pattern.matches(place), // `https://*.example.com` for `https://git.example.com/a`
    ///         Err(_) => false,
    ///     }
    /// }
    /// ```
    pub fn parse_in(text: &'a [u8], buffer: &'a mut [u8]) -> Result<UrlPattern<'a>, NormalError>
        ensures { NormalizesIn true text.now (length buffer.old) result }
    {
        match NormalUrl::read_in(text, true, buffer) {
            Ok(url) => Ok(UrlPattern { url }),
            Err(error) => Err(error),
        }
    }
}

impl UrlPattern<'_> {
    /// Whether the pattern matches the place, by the rules of [`UrlPattern`].
    ///
    /// The place is a normal form without `*`, as [`place_in`](place::place_in) returns it for a location.
    ///
    /// ```
    /// /// Whether a proxy that is set for a URL is used for a place.
    /// fn is_used(pattern: &UrlPattern<'_>, place: &NormalUrl<'_>) -> bool {
    ///     pattern.matches(place)
    /// }
    /// ```
    pub fn matches(&self, place: &NormalUrl<'_>) -> bool
        ensures { IsTrue result ↔ Matches self.now place.now }
    {
        let own = &self.url;
        own.scheme == place.scheme
            && own.port == place.port
            && matches_user(own.user, place.user)
            && matches_host(own.host, place.host)
            && matches_path(own.path, place.path)
    }

    /// The rank of the pattern, if it matches the place.
    pub(crate) fn rank_for(&self, place: &NormalUrl<'_>) -> Option<Rank>
        ensures { HasRank (RanksFor place.now) self.now result }
    {
        if self.matches(place) {
            Some(self.rank())
        } else {
            None
        }
    }

    /// The rank of the pattern.
    fn rank(&self) -> Rank
        ensures { result ≡ rank_of self.now }
    {
        Rank {
            host: self.url.host.len(),
            path: without_last_slash(self.url.path).len() + 1,
            user: self.url.user.is_some() as usize,
        }
    }
}

/// The precedence of a match. The first number that differs decides, and the higher one is better (git-config(1):
/// the host first, then the path, then the user).
///
/// ```
/// /// Whether an entry is set for a URL, and not for all places.
/// fn is_for_url(rank: Rank) -> bool {
///     rank.path > 0 // 0 of `http.proxy`, 1 of `http.https://example.com.proxy`
/// }
/// ```
#[derive(Clone, Copy)]
pub struct Rank {
    /// The length of the host, in bytes.
    pub host: usize,
    /// The length of the path without one trailing `/`, in bytes, plus one; 0 if there is no pattern.
    pub path: usize,
    /// 1 if the pattern has a user, otherwise 0.
    pub user: usize,
}

impl Rank {
    /// Whether the rank is lower than the other.
    fn is_lower(self, other: Rank) -> bool
        ensures { IsTrue result ↔ IsLower self other }
    {
        if self.host != other.host {
            return self.host < other.host;
        }
        if self.path != other.path {
            return self.path < other.path;
        }
        self.user < other.user
    }
}

/// The index of the best pattern that matches the place, or `None` if no pattern does. Tests each pattern once.
///
/// The pattern with the longest host wins, `*` counted as one byte; among these the one with the longest path, then
/// one with a user, then the last.
///
/// ```
/// /// The value that is set for a place: the values are as many as the patterns.
/// fn picked<'a>(patterns: &[UrlPattern<'_>], values: &[&'a str], place: &NormalUrl<'_>) -> Option<&'a str> {
///     values.get(best(patterns, place)?).copied()
/// }
/// ```
pub fn best(patterns: &[UrlPattern<'_>], place: &NormalUrl<'_>) -> Option<usize>
    ensures { IsBest (RanksFor place.now) patterns.now result }
{
    let mut best = None;
    for (i, pattern) in patterns.iter().enumerate() {
        best = better(best, i, pattern.rank_for(place));
    }
    match best {
        None => None,
        Some((i, _)) => Some(i),
    }
}

/// The best match so far, or the next one if it matches and its rank isn't lower.
pub(crate) fn better(
    best: Option<(usize, Rank)>,
    next: usize,
    rank: Option<Rank>,
) -> Option<(usize, Rank)>
    ensures { IsBetter best next rank result }
{
    match (best, rank) {
        (_, None) => best,
        (Some((_, highest)), Some(rank)) if rank.is_lower(highest) => best,
        (_, Some(rank)) => Some((next, rank)),
    }
}

/// Whether the host of a pattern matches the host, label by label.
fn matches_host(pattern: &[u8], host: &[u8]) -> bool
    ensures { IsTrue result ↔ MatchesHost pattern.now host.now }
{
    let mut wanted = pattern;
    let mut rest = host;
    while let Some((label, more)) = first_label(wanted) {
        match first_label(rest) {
            Some((own, suffix)) if matches_label(label, own) => {
                wanted = more;
                rest = suffix;
            }
            _ => return false,
        }
    }
    rest.is_empty()
}

/// The first label of a host, and the text after the `.` that ends it, or `None` if the host is empty.
fn first_label(host: &[u8]) -> Option<(&[u8], &[u8])>
    ensures { MatchOption result (host.now ≡ [])
        (λ p. (labels_of host.now ≡ p.0.now ∷ labels_of p.1.now)
        × (length p.1.now < length host.now)) }
{
    match cut(host, b'.') {
        Some(pieces) => Some(pieces),
        None => only_label(host),
    }
}

/// The host as its only label, with an empty rest, or `None` if the host is empty.
fn only_label(host: &[u8]) -> Option<(&[u8], &[u8])>
    ensures { MatchOption result (host.now ≡ [])
        (λ p. (p.0.now ≡ host.now) × (p.1.now ≡ []) × (0 < length host.now)) }
{
    if host.is_empty() {
        return None;
    }
    Some(host.split_at(host.len()))
}

/// Whether the label of a pattern matches the label.
fn matches_label(wanted: &[u8], label: &[u8]) -> bool
    ensures { IsTrue result ↔ MatchesLabel wanted.now label.now }
{
    wanted == b"*".as_slice() || wanted == label
}

/// Whether the place has the user of the pattern, if the pattern has one.
fn matches_user(pattern: Option<&[u8]>, user: Option<&[u8]>) -> bool
    ensures { IsTrue result
        ↔ MatchesUser (option_map (λ t. t.now) pattern.entry) (option_map (λ t. t.now) user.entry) }
{
    match pattern {
        None => true,
        Some(wanted) => match user {
            None => false,
            Some(own) => wanted == own,
        },
    }
}

/// The path without one trailing `/`.
fn without_last_slash(path: &[u8]) -> &[u8]
    ensures { result.now ≡ spec.without_last_slash path.now }
{
    match before(path, b'/') {
        None => path,
        Some(front) => front,
    }
}

/// Whether the path of a pattern matches the path.
fn matches_path(pattern: &[u8], path: &[u8]) -> bool
    ensures { IsTrue result ↔ MatchesPath pattern.now path.now }
{
    is_below(without_last_slash(pattern), path)
}

/// Whether the path equals `front`, or continues it with a `/`.
fn is_below(front: &[u8], path: &[u8]) -> bool
    ensures { IsTrue result ↔ IsBelow front.now path.now }
{
    match suffix(front, path) {
        None => false,
        Some(rest) => rest.is_empty() || starts_with_byte(rest, b'/'),
    }
}

/// The text after `front`, if the text begins with it.
fn suffix<'a>(front: &[u8], text: &'a [u8]) -> Option<&'a [u8]>
    ensures { MatchOption result ((rest : List ℕ) → ¬ (text.now ≡ front.now ++ rest))
        (λ rest. text.now ≡ front.now ++ rest.now) }
{
    text.strip_prefix(front)
}

/// A pattern without `*` selects, of the locations that `agrees_with_git` accepts, only those whose requests
/// go to the pattern's own place.
///
/// Suppose that a pattern without `*` in its host matches the normal form of the text of an HTTP location for which
/// [`UrlRef::agrees_with_git`](git_location::url_ref::UrlRef::agrees_with_git) is true. Then Git's credential code
/// and a URI reader such as libcurl both read the pattern's scheme, host and port in that text; a missing port is
/// the scheme's default port. The host of the pattern may end in a `.` that theirs lacks: Git ignores it, and the
/// name is the same (RFC 1034, section 3.1). So the request that Git makes for such a text goes to the host of the
/// pattern. [`law_git`](git_laws::laws::law_git) states that each of the two readers has one reading of such a
/// text.
///
/// The law is about the text, not about a server's response. Git follows redirections according to
/// `http.followRedirects` (`initial` if it isn't set), and also sends a header of `http.extraHeader` to the
/// host that it is redirected to; libcurl only drops the header `Authorization`. The law doesn't cover
/// proxies, `.netrc` and `GIT_ASKPASS`.
///
/// ```
/// /// Whether the secret that is kept for a URL may be sent with a location's request, which is made to that URL's host.
/// fn may_be_sent(url: &UrlRef<'_>, kept_for: &UrlPattern<'_>, place: &NormalUrl<'_>) -> bool {
///     agrees_with_git(url) && kept_for.matches(place)
/// }
/// ```
pub fn law_patterns()
    ensures { PickedGoesToOwn }
{}
