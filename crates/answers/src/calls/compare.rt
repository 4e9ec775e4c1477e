//! Calls that compare two values: their order, whether they are equal, and their hashes.

use crate::halt::Halt;
use crate::order::{Order, unknown};
use crate::report::{Out, report_borrowed};
use std::hash::{DefaultHasher, Hash, Hasher};

/// The hash of a value.
pub fn hash_of<T: Hash>(value: &T) -> u64 {
    let mut hasher = DefaultHasher::new();
    value.hash(&mut hasher);
    hasher.finish()
}

/// Calls that compare two values: by their order, by their partial order, by equality and by their hashes.
pub fn compare<T: Ord + Hash>(
    order: Order<'_>,
    one: &T,
    other: &T,
    out: &mut Out,
) -> Result<(), Halt> {
    match order.call() {
        "Url:Ord" | "Scheme:Ord" | "ForUser:Ord" => {
            let orders = (one.cmp(other), one.partial_cmp(other));
            report_borrowed(out, &(orders, alike(one, other)))
        }
        call => unknown(call),
    }
}

/// Whether two values are equal, and whether they have one hash.
pub fn alike<T: Eq + Hash>(one: &T, other: &T) -> (bool, bool) {
    (one == other, hash_of(one) == hash_of(other))
}
