//! The report if nothing has the number that is passed.

ghost use Rattle.std.specs.Prelude.{◌≡◌};
ghost use Rattle.c_values.specs.Codes.{no_location};

use crate::codes::NO_LOCATION;

/// Reports that nothing has the number.
pub fn write_nothing(len: &mut usize) -> u32
    ensures code { result ≡ no_location }
    ensures length { len.new ≡ 0 }
{
    *len = 0;
    NO_LOCATION
}
