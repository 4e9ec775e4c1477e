//! Requests for memory that may fail while other values are owned.

ghost use Rattle.std.specs.Prelude.{◌≡◌, IfOk, Ok};

use gix_url::Error;
use std::alloc::AllocError;

/// Returns both values, or the error of the second after dropping the first.
pub fn both<A: Drop, B: Drop>(first: A, second: Result<B, AllocError>) -> Result<(A, B), AllocError>
    ensures { IfOk result (λ pair. (pair.0 ≡ first) × (second ≡ Ok pair.1)) }
{
    Ok((first, second?))
}

/// Converts the error of a call that fails only if memory is refused.
pub fn no_memory(error: Error) -> AllocError {
    drop(error);
    AllocError
}
