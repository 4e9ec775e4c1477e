//! The places at which Git stops, and at which a text isn't a configuration. The header repeats their numbers.

ghost use Rattle.std.specs.Prelude.{◌≡◌};
ghost use Rattle.c_values.specs.Stops.{StopsAt, no_stop};

/// Git stops at an entry without a value.
pub const NO_VALUE: u32 = 104;
/// Git stops at an entry whose value isn't boolean.
pub const NO_BOOLEAN: u32 = 105;
/// The text isn't a configuration.
pub const NO_CONFIGURATION: u32 = 106;

/// The place of an entry, or in the text of a configuration. All of it is 0 unless the export returns 104 to
/// 106.
#[repr(C)]
#[derive(Clone, Copy)]
pub struct Stop {
    /// The place of the entry, or the number of bytes before the flaw.
    pub at: usize,
    /// The line of the flaw, from 1; otherwise 0.
    pub line: usize,
    /// The flaw of the text: 1 to 13; otherwise 0.
    pub flaw: u8,
}

/// The report if Git doesn't stop.
pub fn no_stop() -> Stop
    ensures { result ≡ no_stop }
{
    Stop {
        at: 0,
        line: 0,
        flaw: 0,
    }
}

/// Reports that Git stops at the entry with this place, and returns the number of the stop.
pub(crate) fn stop_at(code: u32, at: usize, stop: &mut Stop) -> u32
    ensures { StopsAt code at stop.new result }
{
    *stop = Stop { at, ..no_stop() };
    code
}
