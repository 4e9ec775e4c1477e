//! The traits of the types, each tested by a call with that bound.

use gix_url::expand_path::ForUser;
use gix_url::lines::RunError;
use gix_url::parse::UrlKind;
use gix_url::stored::StoredUrl;
use gix_url::{
    ArgumentSafety, Error, PathComponents, QueryText, Scheme, Url, UrlFault, WriteError, WriteFault,
};
use serde::{Deserialize, Serialize};
use std::error;
use std::fmt::{Debug, Display};
use std::hash::Hash;

/// Accepts values that have an order, equality, a hash and `Debug`.
pub fn ordered<T: Debug + PartialEq + Eq + PartialOrd + Ord + Hash>(_value: &T) {}

/// Accepts values that have copies, equality and `Debug`.
pub fn plain<T: Debug + Clone + Copy + PartialEq + Eq>(_value: &T) {}

/// Accepts values that have equality and `Debug`.
pub fn compared<T: Debug + PartialEq + Eq>(_value: &T) {}

/// Accepts values that have `Debug`.
pub fn debugged<T: Debug>(_value: &T) {}

/// Accepts values that have `Display`.
pub fn shown<T: Display>(_value: &T) {}

/// Accepts values that can be stored and restored.
pub fn recorded<'a, T: Serialize + Deserialize<'a>>(_value: &T) {}

/// Accepts errors.
pub fn fallible<T: error::Error + Debug + Display>(_value: &T) {}

/// The traits of locations, of their schemes and of users.
pub fn of_locations(url: &Url, scheme: &Scheme, user: &ForUser) {
    ordered(url);
    shown(url);
    ordered(scheme);
    shown(scheme);
    recorded(scheme);
    ordered(user);
}

/// The traits of forms, of faults, and of judgements of parts as arguments.
pub fn of_plain(
    kind: &UrlKind,
    fault: &UrlFault,
    unwritable: &WriteFault,
    safety: &ArgumentSafety<'_>,
) {
    plain(kind);
    plain(fault);
    plain(unwritable);
    plain(safety);
}

/// The traits of components, and of names and values.
pub fn of_components(components: &PathComponents<'_>, text: &QueryText<'_>) {
    compared(components);
    compared(text);
}

/// The traits of records.
pub fn of_records(stored: &StoredUrl) {
    debugged(stored);
    recorded(stored);
}

/// The traits of errors.
pub fn of_errors(error: &Error, unwritten: &WriteError, fault: &RunError) {
    fallible(error);
    fallible(unwritten);
    fallible(fault);
}
