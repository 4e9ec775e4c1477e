//! The debug output of bytes: their number.

ghost use Rattle.std.specs.Prelude.{◌++◌, Some, codes, decimal};

use std::fmt;

/// A number of bytes. `Debug` writes it as `12 bytes`, in place of the bytes.
#[derive(Clone, Copy)]
pub struct Length(pub usize);

impl fmt::Debug for Length {
    ghost debug_output = { λ size. Some (decimal size.0 ++ codes " bytes") };

    fn fmt<W: fmt::Write>(&self, f: &mut fmt::Formatter<W>) -> fmt::Result {
        let Length(count) = self;
        write!(f, "{count} bytes")
    }
}
