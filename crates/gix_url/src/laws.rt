//! Laws of the library, over the definitions of its contracts alone.
//!
//! The functions have no effect: the clauses of each are laws. (`law_value` reads the fields of a location.)
//! Most laws are in `git_laws`, and some in the modules that they are about; this module has those about
//! errors that own a text. Users combine them with the contracts of `parse`, of the writer, of the settled
//! test and of `lines`, which name the same definitions.

ghost use Rattle.gix_url.specs.Laws.{ReadersAgree, SameWithBuffer};
ghost use Rattle.git_syntax.specs.Refusals.{Decided, Flawless};
ghost use Rattle.git_refusals.specs.Laws.{OneRefusal, RefusedFlaw, RefusedUnspelled, RefusedWithin};
ghost use Rattle.gix_url.specs.Refusals.{Exclusive};

pub use crate::home_law::{law_homes, law_user_order};
pub use crate::location::law_value;
pub use git_laws::laws::{
    law_closed, law_components, law_git, law_lines, law_order, law_scheme_order, law_separation,
    law_stored, law_stripped,
};
pub use git_location::argument::law_arguments;
pub use git_location::display::law_hidden_password;
pub use git_readers::law::{law_known_readers, law_unambiguous};
pub use git_syntax::address_law::law_address_test;
pub use git_syntax::escape::law_sets;

/// Reading with allocation and reading without it have the same results, unless memory or the buffer is too
/// small.
///
/// - `agree`: for the same bytes [`parse`](crate::parse::parse) and
///   [`UrlRef::parse_in`](crate::UrlRef::parse_in) return the same location, or both refuse them; otherwise an
///   allocation of the first failed, or the buffer of the second is shorter than the bytes.
/// - `same`: with a buffer as long as the bytes, the second returns a location exactly if the first does when
///   no allocation fails. So a program without an allocator reads every text like a program with one.
pub fn law_readers()
    ensures agree { ReadersAgree }
    ensures same { SameWithBuffer }
{}

/// A refused text spells no location.
///
/// - `exclusive`: bytes with the flaw of an error spell no location, whichever error it is except a failed
///   allocation. So no reader that implements these definitions accepts bytes that
///   [`parse`](crate::parse::parse) refuses.
/// - `refusal`: the same holds for a [`Refusal`](crate::Refusal), which reading into a buffer returns, and for
///   the answer to a line.
/// - `one`: a text has at most one refusal. If it has several flaws, every call names the same one, at the same
///   place: the first in the order of checks.
/// - `flaw`: the flaw that the error of a refusal names is in the text.
/// - `within`: the place of a refusal is in its text, so the text can be cut there.
/// - `flawless`: bytes that spell a location have no flaw, whether or not there is an error with a copy of
///   them.
/// - `decided`: bytes spell a location or have one of these flaws, and by `flawless` not both. So for every
///   text that isn't read, there is a flaw that an error can name.
pub fn law_refusals()
    ensures exclusive { Exclusive }
    ensures refusal { RefusedUnspelled }
    ensures one { OneRefusal }
    ensures flaw { RefusedFlaw }
    ensures within { RefusedWithin }
    ensures flawless { Flawless }
    ensures decided { Decided }
{}
