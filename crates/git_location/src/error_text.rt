//! The words of write faults in error messages.
//!
//! The words are those of the definitions, whatever width, precision and flags the formatter has.

ghost use Rattle.std.specs.Prelude.{Some};
ghost use Rattle.git_location.specs.ErrorText.{write_fault_words};

use crate::write_error::WriteFault;
use std::fmt;

impl fmt::Display for WriteFault {
    ghost output = { λ fault. Some (write_fault_words fault) };

    ghost styled_output = { λ fault _. Some (write_fault_words fault) };

    /// Writes which fields of the location don't go together.
    fn fmt<W: fmt::Write>(&self, f: &mut fmt::Formatter<W>) -> fmt::Result {
        match self {
            WriteFault::HelperName => f.write_str("the remote helper has no valid name"),
            WriteFault::HelperParts => {
                f.write_str("a remote helper comes with a user, a password, a host or a port")
            }
            WriteFault::RelativeSsh => f.write_str(
                "a relative path of Secure Shell comes without a host, or with a password or a port",
            ),
            WriteFault::UserWithoutHost => f.write_str("a user comes without a host"),
        }
    }
}
