//! The findings about a submodule of a file as a whole, independent of those about its entries.

ghost use Rattle.std.specs.Prelude.{◌≡◌, IfOk};
ghost use Rattle.explain_audit.specs.Wholes as spec;

use crate::kind::Kind;
use git_modules::submodules::Submodule;
use git_modules::submodules::defect::Defects;
use std::alloc::{AllocError, Global};

/// Returns the findings about a submodule that has these defects, in the order of the defects.
pub fn kinds_of(alloc: Global, defects: Defects) -> Result<Vec<Kind>, AllocError>
    ensures { IfOk result (λ found. found.items ≡ spec.kinds_of defects) }
{
    let mut found = Vec::new(alloc);
    if defects.no_path {
        found.push(Kind::NoPath)?;
    }
    if defects.no_url {
        found.push(Kind::NoUrl)?;
    }
    if defects.same_path {
        found.push(Kind::SamePath)?;
    }
    Ok(found)
}

/// Returns the index of the entry at which a finding is reported: that of the path for [`Kind::SamePath`], otherwise
/// the first one of the submodule.
pub fn index_of(kind: Kind, submodule: &Submodule<'_>, first: usize) -> usize {
    match (kind, submodule.path) {
        (Kind::SamePath, Some(path)) => path.index,
        _ => first,
    }
}
