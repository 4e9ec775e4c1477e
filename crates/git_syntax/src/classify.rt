//! The form of a text, and the pieces that it is cut into.
//!
//! The form is the one in which the definitions read the text. The pieces, joined by the marks of that form,
//! are the text.

ghost use Rattle.std.specs.Prelude.{◌≡◌, ◌<◌, ◌++◌, ◌∷◌, List, ℕ, MatchOption, length};
ghost use Rattle.git_syntax.specs.Bytes.{FreeOf, colon, left_bracket, right_bracket, slash};
ghost use Rattle.git_syntax.specs.Internal.Cuts.{CutsAtMark};
ghost use Rattle.git_syntax.specs.Grammar.{AddressedCut, HasHelperForm, HelperCut, IsNeither};
ghost use Rattle.git_syntax.specs.Internal.Forms.{AddressedFront, Classifies, ColonCut, FrontCut, HasAddressedCut, HasFrontCut, HasScpCut, IsColonFront, LacksBrackets, ScpCut, addressed_text};

use crate::bytes::{
    after, cut, cut_at_mark, is_free_of, is_helper_name, last_cut, starts_with_byte,
};
use crate::ipv6::is_address;

/// The form of a text, with its pieces.
#[derive(Clone, Copy)]
pub enum Form<'a> {
    /// The empty text.
    Empty,
    /// A remote helper: `name::address`.
    Helper {
        name: &'a [u8],
        address: &'a [u8],
    },
    /// A URL: `scheme://rest`.
    Url {
        scheme: &'a [u8],
        rest: &'a [u8],
    },
    /// The scp form with an IPv6 text in brackets after the user: `user@[address]:path`.
    Addressed {
        user: &'a [u8],
        address: &'a [u8],
        path: &'a [u8],
    },
    /// Any other scp form: `front:path`.
    Scp {
        front: &'a [u8],
        path: &'a [u8],
    },
    /// A local path.
    Local,
}

/// Returns the form of the text, with its pieces.
#[inline(always)]
pub fn classify(bytes: &[u8]) -> Form<'_>
    ensures { Classifies bytes.now result }
{
    match cut(bytes, b':') {
        Some((front, rest)) => classify_cut(bytes, front, rest),
        None => classify_whole(bytes),
    }
}

/// The form of a text without a colon.
#[inline(always)]
fn classify_whole(bytes: &[u8]) -> Form<'_>
    requires { FreeOf colon bytes.now }
    ensures { Classifies bytes.now result }
{
    if bytes.is_empty() {
        Form::Empty
    } else {
        Form::Local
    }
}

/// The form of a text, by the bytes before and after its first colon.
#[inline(always)]
fn classify_cut<'a>(bytes: &'a [u8], front: &'a [u8], rest: &'a [u8]) -> Form<'a>
    requires { ColonCut bytes.now front.now rest.now }
    ensures { Classifies bytes.now result }
{
    match helper_address(front, rest) {
        Some(address) => Form::Helper {
            name: front,
            address,
        },
        None => classify_other(bytes, front, rest),
    }
}

/// The address of a remote helper, from the bytes before and after the first colon.
fn helper_address<'a>(name: &[u8], rest: &'a [u8]) -> Option<&'a [u8]>
    requires { FreeOf colon name.now }
    ensures { MatchOption result (¬ HasHelperForm (name.now ++ colon ∷ rest.now))
        (λ address. HelperCut (name.now ++ colon ∷ rest.now) name.now address.now) }
{
    match after(rest, b':') {
        None => None,
        Some(address) => {
            if is_helper_name(name) {
                Some(address)
            } else {
                None
            }
        }
    }
}

/// The form of a text that does not name a remote helper.
#[inline(always)]
fn classify_other<'a>(bytes: &'a [u8], front: &'a [u8], rest: &'a [u8]) -> Form<'a>
    requires cut { ColonCut bytes.now front.now rest.now }
    requires no_helper { ¬ HasHelperForm bytes.now }
    ensures { Classifies bytes.now result }
{
    match cut_url(bytes, front, rest) {
        Some((scheme, rest)) => Form::Url { scheme, rest },
        None => classify_path(bytes, front, rest),
    }
}

/// The bytes before and after the first `://`. In most texts the first colon begins it, or no other colon does.
fn cut_url<'a>(bytes: &'a [u8], front: &'a [u8], rest: &'a [u8]) -> Option<(&'a [u8], &'a [u8])>
    requires { ColonCut bytes.now front.now rest.now }
    ensures { CutsAtMark bytes.now result }
{
    match after_slashes(rest) {
        Some(suffix) => Some((front, suffix)),
        None => {
            if is_free_of(rest, b':') {
                None
            } else {
                cut_at_mark(bytes)
            }
        }
    }
}

/// The bytes after two slashes at the front.
pub(crate) fn after_slashes(text: &[u8]) -> Option<&[u8]>
    ensures { MatchOption result ((suffix : List ℕ) → ¬ (text.now ≡ slash ∷ (slash ∷ suffix)))
        (λ suffix. text.now ≡ slash ∷ (slash ∷ suffix.now)) }
{
    match after(text, b'/') {
        Some(rest) => after(rest, b'/'),
        None => None,
    }
}

/// The form of a text that is neither a remote helper nor a URL.
#[inline(always)]
fn classify_path<'a>(bytes: &'a [u8], front: &'a [u8], rest: &'a [u8]) -> Form<'a>
    requires cut { ColonCut bytes.now front.now rest.now }
    requires neither { IsNeither bytes.now }
    ensures { Classifies bytes.now result }
{
    match cut_addressed(bytes, front) {
        Some(pieces) => Form::Addressed {
            user: pieces.user,
            address: pieces.address,
            path: pieces.path,
        },
        None => classify_plain(bytes, front, rest),
    }
}

/// The form of such a text that is not of the form `user@[address]:path`.
#[inline(always)]
fn classify_plain<'a>(bytes: &'a [u8], front: &'a [u8], rest: &'a [u8]) -> Form<'a>
    requires cut { ColonCut bytes.now front.now rest.now }
    requires neither { IsNeither bytes.now }
    requires not_addressed { ¬ HasAddressedCut bytes.now }
    ensures { Classifies bytes.now result }
{
    match cut_scp(bytes, front, rest) {
        Some((front, path)) => Form::Scp { front, path },
        None => Form::Local,
    }
}

/// The pieces of `user@[address]:path`.
#[derive(Clone, Copy)]
struct AddressedPieces<'a> {
    user: &'a [u8],
    address: &'a [u8],
    path: &'a [u8],
}

/// The pieces of `user@[address]:path`, if the text has this form. `front` is the text before its first colon.
fn cut_addressed<'a>(bytes: &'a [u8], front: &'a [u8]) -> Option<AddressedPieces<'a>>
    requires { IsColonFront bytes.now front.now }
    ensures { MatchOption result (¬ HasAddressedCut bytes.now)
        (λ cut. AddressedCut bytes.now cut.user.now cut.address.now cut.path.now) }
{
    match cut_addressed_user(bytes, front) {
        Some(found) => cut_address(found.user, found.suffix),
        None => None,
    }
}

/// The only user that such a text can have, and the text after its `@[`.
#[derive(Clone, Copy)]
struct UserCut<'a> {
    user: &'a [u8],
    suffix: &'a [u8],
}

/// That user. The first colon is one of the address, which has no `@`, so the user ends at the last `@` before
/// it.
fn cut_addressed_user<'a>(bytes: &'a [u8], front: &'a [u8]) -> Option<UserCut<'a>>
    requires { IsColonFront bytes.now front.now }
    ensures { MatchOption result (¬ HasAddressedCut bytes.now)
        (λ cut. AddressedFront bytes.now cut.user.now cut.suffix.now) }
{
    match last_cut(front, b'@') {
        None => None,
        Some((user, host)) => {
            if starts_with_byte(host, b'[') {
                Some(UserCut {
                    user,
                    suffix: bytes.split_at(user.len() + 2).1,
                })
            } else {
                None
            }
        }
    }
}

/// The address and the path, which follow this user and its `@[`.
fn cut_address<'a>(user: &'a [u8], suffix: &'a [u8]) -> Option<AddressedPieces<'a>>
    requires { AddressedFront (addressed_text user.now suffix.now) user.now suffix.now }
    ensures { MatchOption result (¬ HasAddressedCut (addressed_text user.now suffix.now))
        (λ cut. AddressedCut (addressed_text user.now suffix.now)
        cut.user.now cut.address.now cut.path.now) }
{
    match cut(suffix, b']') {
        None => None,
        Some((address, rest)) => match after(rest, b':') {
            None => None,
            Some(path) => {
                if is_free_of(user, b'/') && is_address(address) {
                    Some(AddressedPieces {
                        user,
                        address,
                        path,
                    })
                } else {
                    None
                }
            }
        },
    }
}

/// The bytes before and after the colon of the scp form.
fn cut_scp<'a>(bytes: &'a [u8], front: &'a [u8], rest: &'a [u8]) -> Option<(&'a [u8], &'a [u8])>
    requires { ColonCut bytes.now front.now rest.now }
    ensures { MatchOption result (¬ HasScpCut bytes.now) (λ p. ScpCut bytes.now p.0.now p.1.now) }
{
    match cut_front(bytes, front, rest) {
        Some((front, path)) => {
            if is_free_of(front, b'/') {
                Some((front, path))
            } else {
                None
            }
        }
        None => None,
    }
}

/// The bytes before and after the first colon; if the text begins with an opening bracket, the first colon
/// after a closing one.
fn cut_front<'a>(bytes: &'a [u8], front: &'a [u8], rest: &'a [u8]) -> Option<(&'a [u8], &'a [u8])>
    requires { ColonCut bytes.now front.now rest.now }
    ensures { MatchOption result (¬ HasFrontCut bytes.now)
        (λ p. FrontCut bytes.now p.0.now p.1.now) }
{
    match cut_brackets(bytes) {
        Some((inside, suffix)) => cut_after(bytes, inside, suffix),
        None => Some((front, rest)),
    }
}

/// The bytes before and after the first colon that follows brackets at the front.
fn cut_after<'a>(
    bytes: &'a [u8],
    inside: &'a [u8],
    suffix: &'a [u8],
) -> Option<(&'a [u8], &'a [u8])>
    requires closed { FreeOf right_bracket inside.now }
    requires joined { bytes.now ≡ left_bracket ∷ (inside.now ++ right_bracket ∷ suffix.now) }
    ensures { MatchOption result (¬ HasFrontCut bytes.now)
        (λ p. FrontCut bytes.now p.0.now p.1.now) }
{
    match cut(suffix, b':') {
        Some((rest, path)) => Some((bytes.split_at(inside.len() + rest.len() + 2).0, path)),
        None => None,
    }
}

/// The bytes between brackets at the front, and the bytes after them.
fn cut_brackets(bytes: &[u8]) -> Option<(&[u8], &[u8])>
    ensures { MatchOption result (LacksBrackets bytes.now)
        (λ p. FreeOf right_bracket p.0.now
        × (bytes.now ≡ left_bracket ∷ (p.0.now ++ right_bracket ∷ p.1.now))) }
{
    match after(bytes, b'[') {
        Some(suffix) => cut(suffix, b']'),
        None => None,
    }
}
