//! The law that the contract of [`entries`](crate::config_file::entries) determines the items of a text, whether it
//! is read to its end, and its error.

ghost use Rattle.git_modules.specs.ConfigFileLaws.{OneFileReading};

/// A text has only one reading.
pub fn law_one_file_reading()
    ensures { OneFileReading }
{}
