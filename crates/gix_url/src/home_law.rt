//! The laws of home folders and of paths as text, over their definitions alone.

ghost use Rattle.std.specs.Cmp.{IsTotalOrder};
ghost use Rattle.gix_url.specs.HomeLaws.{OneExpansion, OneFolder, OneJoined, OneParent, OneReading, OneRest, OneHomeSplit};
ghost use Rattle.gix_url.specs.HomeOrder.{fed_user, user_cmp, user_eq};
ghost use Rattle.git_laws.specs.Laws.{EqualIsSame, FedAlike, TiedIsEqual};

/// Each definition of home folders and of paths as text has only one result for each text.
///
/// - `split`: a path has one home split, so the result of `expand_path::parse` is determined.
/// - `shell`: there is one text as which a shell takes a path, and `expand_path::for_shell` returns it.
/// - `rest`, `joined`, `parent`: the same holds for a path without its first component, for a path joined to a
///   folder, and for the parent of a path.
/// - `folder`: a user has one home folder, or none is known. So `NoHome` is returned only if there is none.
/// - `expansion`: a path has one expansion. Callers may store the result of `expand_path::expand_path`.
pub fn law_homes()
    ensures split { OneHomeSplit }
    ensures shell { OneReading }
    ensures rest { OneRest }
    ensures joined { OneJoined }
    ensures parent { OneParent }
    ensures folder { OneFolder }
    ensures expansion { OneExpansion }
{}

/// Equality, order and hash of the users of home folders agree: each clause states for users the fact that the
/// clause of this name in [`law_order`](git_laws::laws::law_order) states for locations.
pub fn law_user_order()
    ensures same { EqualIsSame user_eq }
    ensures tied { TiedIsEqual user_eq user_cmp }
    ensures total { IsTotalOrder user_cmp }
    ensures hashed { FedAlike user_eq fed_user }
{}
