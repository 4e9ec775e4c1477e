//! The law that the contract of [`Reader`](crate::config::Reader) determines the items.

ghost use Rattle.git_rules.specs.ConfigLaws.{OneReading};

/// A text has only one reading.
pub fn law_one_reading()
    ensures { OneReading }
{}
