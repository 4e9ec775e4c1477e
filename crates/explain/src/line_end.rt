//! The end of a line of the input.
//!
//! `tests/programs/test_command_lines.py` tests which lines are read.

/// The end of a line of the input.
#[derive(Clone, Copy)]
pub enum LineEnd {
    /// A line feed.
    Feed,
    /// A line feed, and a carriage return before it if there is one.
    ReturnAndFeed,
    /// A byte 0.
    Null,
}

impl LineEnd {
    /// The last byte of the end.
    pub fn byte(self) -> u8 {
        match self {
            LineEnd::Feed | LineEnd::ReturnAndFeed => b'\n',
            LineEnd::Null => 0,
        }
    }

    /// The line without its end, and whether it has one.
    pub fn split(self, line: &[u8]) -> (&[u8], bool) {
        match line.split_last() {
            Some((last, bytes)) if *last == self.byte() => (self.without_return(bytes), true),
            _ => (line, false),
        }
    }

    /// The line without the carriage return at its end, if that is a part of the end.
    fn without_return(self, line: &[u8]) -> &[u8] {
        if !matches!(self, LineEnd::ReturnAndFeed) {
            return line;
        }
        match line.split_last() {
            Some((last, bytes)) if *last == b'\r' => bytes,
            _ => line,
        }
    }
}
