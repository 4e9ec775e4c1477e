//! Why an order was not executed. No call has one of these as its result.

use std::alloc::{AllocError, AllocFailed};
use std::io;

/// Why an order was not executed.
#[derive(Clone, Copy)]
pub enum Halt {
    /// The order isn't JSON, or memory was refused while it was parsed.
    Unread,
    /// The order doesn't name a call, or not one over its inputs.
    Unknown,
    /// An input of the call wasn't built: memory was refused, or the order has no such member.
    Unprepared,
    /// The call changed a borrowed input.
    Changed,
    /// The result can't be written.
    NotReported(io::Error),
}

impl Halt {
    /// The words that are reported in place of a result.
    pub fn words(self) -> &'static str {
        match self {
            Halt::Unread => "no order",
            Halt::Unknown => "no such call",
            Halt::Unprepared => "not prepared",
            Halt::Changed => "what was borrowed is changed",
            Halt::NotReported(_) => "not told",
        }
    }
}

impl From<AllocError> for Halt {
    fn from(_: AllocError) -> Halt {
        Halt::Unprepared
    }
}

impl From<AllocFailed<u8>> for Halt {
    fn from(_: AllocFailed<u8>) -> Halt {
        Halt::Unprepared
    }
}

impl From<io::Error> for Halt {
    fn from(error: io::Error) -> Halt {
        Halt::NotReported(error)
    }
}
