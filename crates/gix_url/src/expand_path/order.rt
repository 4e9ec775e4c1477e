//! Equality, order and hash of users, by the bytes of their names. The current user comes before all others.

ghost use Rattle.std.specs.Prelude.{◌≡◌, Some, option_map, refl};
ghost use Rattle.std.specs.Cmp.{on_equiv, on_per, on_po, on_total, partial_equiv_from_equiv};
ghost use Rattle.gix_url.specs.HomeOrder.{fed_user, user_cmp, user_eq, user_equiv, user_name, user_po, user_ties, user_total, users_alike};
ghost use Rattle.gix_url.specs.HomeReadings.{user_of};

use super::ForUser;
use crate::order::{compare_texts, feed_bytes_there, texts_equal};
use std::cmp::Ordering;
use std::hash::{Hash, Hasher};

impl PartialEq for ForUser {
    ghost eq = { λ u v. user_eq (user_of u) (user_of v) };

    ghost laws = { on_per user_of (partial_equiv_from_equiv user_equiv) };

    fn eq(&self, other: &ForUser) -> bool {
        texts_equal(name_of(self), name_of(other))
    }
}

impl Eq for ForUser {
    ghost laws = { on_equiv user_of user_equiv };
}

impl PartialOrd for ForUser {
    ghost partial_cmp = { λ u v. Some (user_cmp (user_of u) (user_of v)) };

    ghost laws = { on_po user_of user_po };

    fn partial_cmp(&self, other: &ForUser) -> Option<Ordering> {
        Some(self.cmp(other))
    }
}

impl Ord for ForUser {
    ghost cmp = { λ u v. user_cmp (user_of u) (user_of v) };

    ghost total = { on_total user_of user_total };

    ghost matches_partial_cmp = { λ u v. refl };

    ghost matches_eq = { λ u v. user_ties (user_of u) (user_of v) };

    fn cmp(&self, other: &ForUser) -> Ordering {
        compare_texts(name_of(self), name_of(other))
    }
}

impl Hash for ForUser {
    ghost hash_input = { λ u. fed_user (user_of u) };

    ghost respects_eq = { λ u v. users_alike (user_of u) (user_of v) };

    fn hash<H: Hasher>(&self, state: &mut H) {
        state.write_u8(name_of(self).is_some() as u8);
        feed_bytes_there(name_of(self), state);
    }
}

/// The name of the user; the current one has none.
fn name_of(user: &ForUser) -> Option<&[u8]>
    ensures { option_map (λ name. name.now) result ≡ user_name (user_of user.now) }
{
    match user {
        ForUser::Current => None,
        ForUser::Name(name) => Some(name.as_bytes()),
    }
}
