//! Equality, order and hash of schemes and of locations, by their bytes: the fields in declared order, the
//! retained spelling last.

ghost use Rattle.std.specs.Prelude.{◌≡◌, Some, fold, option_map, refl, string_bytes};
ghost use Rattle.std.specs.Hash as fed;
ghost use Rattle.std.specs.Cmp.{on_equiv, on_per, on_po, on_total, partial_equiv_from_equiv};
ghost use Rattle.git_laws.specs.Order.{bytes_cmp, fed_bytes, fed_location, fed_part, fed_scheme, fed_text, held_name, location_cmp, location_eq, outline, scheme_cmp, scheme_eq, rank, text_cmp, text_eq};
ghost use Rattle.gix_url.specs.Views.{owned_scheme};
ghost use Rattle.git_laws.specs.OrderLaws.{location_equiv, location_po, location_ties, location_total, locations_alike, scheme_equiv, scheme_po, scheme_ties, scheme_total, schemes_alike};

mod same;

use crate::location::Url;
use crate::order::same::bytes_equal;
use crate::scheme::Scheme;
use std::cmp::Ordering;
use std::hash::{Hash, Hasher};

impl PartialEq for Scheme {
    ghost eq = { λ s t. scheme_eq (owned_scheme s) (owned_scheme t) };

    ghost laws = { on_per owned_scheme (partial_equiv_from_equiv scheme_equiv) };

    /// Whether both schemes are of one kind with one name. Allocates nothing.
    ///
    /// Equal schemes are written alike, but schemes that are written alike can differ: the remote helper `x`
    /// isn't the scheme `x` of a URL.
    #[inline(always)]
    fn eq(&self, other: &Scheme) -> bool {
        rank(self) == rank(other) && texts_equal(held_name(self), held_name(other))
    }
}

impl Eq for Scheme {
    ghost laws = { on_equiv owned_scheme scheme_equiv };
}

impl PartialOrd for Scheme {
    ghost partial_cmp = { λ s t. Some (scheme_cmp (owned_scheme s) (owned_scheme t)) };

    ghost laws = { on_po owned_scheme scheme_po };

    fn partial_cmp(&self, other: &Scheme) -> Option<Ordering> {
        Some(self.cmp(other))
    }
}

impl Ord for Scheme {
    ghost cmp = { λ s t. scheme_cmp (owned_scheme s) (owned_scheme t) };

    ghost total = { on_total owned_scheme scheme_total };

    ghost matches_partial_cmp = { λ s t. refl };

    ghost matches_eq = { λ s t. scheme_ties (owned_scheme s) (owned_scheme t) };

    /// The order of two schemes: as their kinds are declared, and then by the bytes of their names. Allocates
    /// nothing.
    fn cmp(&self, other: &Scheme) -> Ordering {
        rank(self)
            .cmp(&rank(other))
            .then_with(|| compare_texts(held_name(self), held_name(other)))
    }
}

impl Hash for Scheme {
    ghost hash_input = { λ s. fed_scheme (owned_scheme s) };

    ghost respects_eq = { λ s t. schemes_alike (owned_scheme s) (owned_scheme t) };

    /// Feeds the hasher the kind of the scheme, and its name. Allocates nothing.
    fn hash<H: Hasher>(&self, state: &mut H) {
        state.write_u8(rank(self));
        feed_text(held_name(self), state);
    }
}

impl PartialEq for Url {
    ghost eq = { location_eq };

    ghost laws = { partial_equiv_from_equiv location_equiv };

    /// Whether all fields are equal, texts by their bytes, including the retained spelling of the path.
    /// Allocates nothing.
    ///
    /// Equal locations are one value (`law_order`). Locations that name one place can differ: by a default
    /// port, or by an escape in the text of the path.
    ///
    /// ```
    /// /// Whether a remote is among those that are known.
    /// fn is_known(known: &[Url], remote: &Url) -> bool {
    ///     known.iter().any(|url| url == remote)
    /// }
    /// ```
    fn eq(&self, other: &Url) -> bool {
        self.scheme == other.scheme
            && strings_equal(&self.user, &other.user)
            && strings_equal(&self.password, &other.password)
            && strings_equal(&self.host, &other.host)
            && self.serialize_alternative_form == other.serialize_alternative_form
            && self.port == other.port
            && bytes_equal(self.path.as_bytes(), other.path.as_bytes())
            && texts_equal(spelling(self), spelling(other))
    }
}

impl Eq for Url {
    ghost laws = { location_equiv };
}

impl PartialOrd for Url {
    ghost partial_cmp = { λ v w. Some (location_cmp v w) };

    ghost laws = { location_po };

    fn partial_cmp(&self, other: &Url) -> Option<Ordering> {
        Some(self.cmp(other))
    }
}

impl Ord for Url {
    ghost cmp = { location_cmp };

    ghost total = { location_total };

    ghost matches_partial_cmp = { λ v w. refl };

    ghost matches_eq = { location_ties };

    /// The order of two locations: by the first field that differs, in the order of the fields, the retained
    /// spelling last. A missing field comes first, and `false` before `true`. Allocates nothing.
    ///
    /// ```
    /// /// Puts remotes into order.
    /// fn sort(remotes: &mut Vec<Url>) -> Result<(), AllocError> {
    ///     remotes.sort()
    /// }
    /// ```
    fn cmp(&self, other: &Url) -> Ordering {
        compare(&self.scheme, &other.scheme)
            .then_with(|| compare_strings(&self.user, &other.user))
            .then_with(|| compare_strings(&self.password, &other.password))
            .then_with(|| compare_strings(&self.host, &other.host))
            .then_with(|| compare(
                &self.serialize_alternative_form,
                &other.serialize_alternative_form,
            ))
            .then_with(|| compare(&self.port, &other.port))
            .then_with(|| compare_bytes(self.path.as_bytes(), other.path.as_bytes()))
            .then_with(|| compare_texts(spelling(self), spelling(other)))
    }
}

impl Hash for Url {
    ghost hash_input = { fed_location };

    ghost respects_eq = { locations_alike };

    /// Feeds the hasher a byte for each field, with the kind of the scheme and which fields are there, and then
    /// the contents of the fields, in their order, the retained spelling last. Allocates nothing.
    fn hash<H: Hasher>(&self, state: &mut H) {
        state.write(&outline(self));
        feed_text(held_name(&self.scheme), state);
        feed_text(text_bytes(&self.user), state);
        feed_text(text_bytes(&self.password), state);
        feed_text(text_bytes(&self.host), state);
        feed_port(self.port, state);
        feed_bytes(self.path.as_bytes(), state);
        feed_bytes_there(spelling(self), state);
    }
}

/// A byte for each field: the kind of the scheme, the flag, and whether each other field is there, as the path
/// always is.
fn outline(url: &Url) -> [u8; 8]
    ensures { result ≡ outline url.now }
{
    [
        rank(&url.scheme),
        url.user.is_some() as u8,
        url.password.is_some() as u8,
        url.host.is_some() as u8,
        url.serialize_alternative_form as u8,
        url.port.is_some() as u8,
        1,
        url.spelling.is_some() as u8,
    ]
}

/// The bytes of a text that may be missing.
fn text_bytes(text: &Option<String>) -> Option<&[u8]>
    ensures { option_map (λ t. t.now) result ≡ option_map string_bytes text.now }
{
    match text {
        None => None,
        Some(text) => Some(text.as_bytes()),
    }
}

/// The bytes of the retained spelling, if there is one.
fn spelling(url: &Url) -> Option<&[u8]>
    ensures { option_map (λ s. s.now) result ≡ url.now.spelling }
{
    match &url.spelling {
        None => None,
        Some(spelling) => Some(spelling.as_bytes()),
    }
}

/// The index of the scheme's kind in the order of declaration.
fn rank(scheme: &Scheme) -> u8
    ensures { result ≡ rank (owned_scheme scheme.now) }
{
    match scheme {
        Scheme::File => 0,
        Scheme::Git => 1,
        Scheme::Ssh => 2,
        Scheme::Http => 3,
        Scheme::Https => 4,
        Scheme::Ext => 5,
        Scheme::Helper(_) => 6,
        Scheme::HelperUrl(_) => 7,
    }
}

/// The name in the scheme, if its kind has one.
fn held_name(scheme: &Scheme) -> Option<&[u8]>
    ensures { option_map (λ name. name.now) result ≡ held_name (owned_scheme scheme.now) }
{
    match scheme {
        Scheme::Helper(name) | Scheme::HelperUrl(name) => Some(name.as_bytes()),
        Scheme::File | Scheme::Git | Scheme::Ssh => None,
        Scheme::Http | Scheme::Https | Scheme::Ext => None,
    }
}

/// Whether both owned texts are missing, or both are there with the same bytes.
#[inline(always)]
fn strings_equal(a: &Option<String>, b: &Option<String>) -> bool
    ensures { result ≡ text_eq (option_map string_bytes a.now) (option_map string_bytes b.now) }
{
    texts_equal(text_bytes(a), text_bytes(b))
}

/// Whether both texts are missing, or both are there with the same bytes.
#[inline(always)]
pub(crate) fn texts_equal(a: Option<&[u8]>, b: Option<&[u8]>) -> bool
    ensures { result ≡ text_eq (option_map (λ t. t.now) a.entry) (option_map (λ t. t.now) b.entry) }
{
    match a {
        None => b.is_none(),
        Some(a) => match b {
            None => false,
            Some(b) => bytes_equal(a, b),
        },
    }
}

/// The order of two fields. Equality, which is faster, is tested first: it holds for every field except the one
/// that decides.
#[inline(always)]
fn compare<T: Ord>(a: &T, b: &T) -> Ordering
    ensures { result ≡ T.cmp a.now b.now }
{
    if a == b { Ordering::Equal } else { a.cmp(b) }
}

/// The order of two owned texts.
#[inline(always)]
fn compare_strings(a: &Option<String>, b: &Option<String>) -> Ordering
    ensures { result ≡ text_cmp (option_map string_bytes a.now) (option_map string_bytes b.now) }
{
    compare_texts(text_bytes(a), text_bytes(b))
}

/// The order of two texts: a missing one comes first. Equality is tested first here, too.
#[inline(always)]
pub(crate) fn compare_texts(a: Option<&[u8]>, b: Option<&[u8]>) -> Ordering
    ensures { result ≡ text_cmp (option_map (λ t. t.now) a.entry)
        (option_map (λ t. t.now) b.entry) }
{
    if texts_equal(a, b) {
        Ordering::Equal
    } else {
        order_texts(a, b)
    }
}

/// The order of bytes, by the first that differs. Equality is tested first here, too.
#[inline(always)]
fn compare_bytes(a: &[u8], b: &[u8]) -> Ordering
    ensures { result ≡ bytes_cmp a.now b.now }
{
    if bytes_equal(a, b) {
        Ordering::Equal
    } else {
        a.cmp(b)
    }
}

/// The order of two texts, without a test for equality before. It is called if they differ, so it is not
/// inlined into its callers.
#[inline(never)]
fn order_texts(a: Option<&[u8]>, b: Option<&[u8]>) -> Ordering
    ensures { result ≡ text_cmp (option_map (λ t. t.now) a.entry)
        (option_map (λ t. t.now) b.entry) }
{
    match a {
        None => match b {
            None => Ordering::Equal,
            Some(_) => Ordering::Less,
        },
        Some(a) => match b {
            None => Ordering::Greater,
            Some(b) => a.cmp(b),
        },
    }
}

/// Feeds a text, if it is there: its bytes, and then 255, which is not in UTF-8.
fn feed_text<H: Hasher>(text: Option<&[u8]>, state: &mut H)
    ensures { state.new ≡ fold H.write state.old (fed_text (option_map (λ t. t.now) text.entry)) }
{
    if let Some(text) = text {
        state.write(text);
        state.write_u8(255);
    }
}

/// Feeds a port, if it is there.
fn feed_port<H: Hasher>(port: Option<u16>, state: &mut H)
    ensures { state.new ≡ fold H.write state.old (fed_part fed.u16 port) }
{
    if let Some(port) = port {
        state.write_u16(port);
    }
}

/// Feeds bytes, if they are there.
pub(crate) fn feed_bytes_there<H: Hasher>(bytes: Option<&[u8]>, state: &mut H)
    ensures { state.new ≡ fold H.write state.old
        (fed_part fed_bytes (option_map (λ b. b.now) bytes.entry)) }
{
    if let Some(bytes) = bytes {
        feed_bytes(bytes, state);
    }
}

/// Feeds the length of the bytes, and then all bytes at once.
fn feed_bytes<H: Hasher>(bytes: &[u8], state: &mut H)
    ensures { state.new ≡ fold H.write state.old (fed_bytes bytes.now) }
{
    state.write_usize(bytes.len());
    state.write(bytes);
}
