//! Values as they are shown, as JSON: `shown`, and `failed` if the formatter failed.

use crate::bytes::write_inside;
use crate::halt::Halt;
use crate::report::Out;
use std::fmt::{self, Write};
use std::io;

/// A formatter that reports its input as the inside of a JSON string.
#[derive(Drop)]
struct Inside<'a> {
    out: &'a mut Out,
}

impl Write for Inside<'_> {
    fn write_str(&mut self, text: &str) -> fmt::Result {
        write_inside(self.out, text.as_bytes()).map_err(|_| fmt::Error)
    }
}

/// Reports a value as it is shown in a style, and whether that failed.
pub fn show<T: fmt::Display + fmt::Debug>(
    out: &mut Out,
    style: &str,
    value: &T,
) -> Result<(), Halt> {
    io::Write::write_all(out, b"{\"shown\":\"")?;
    let shown = write_in(&mut Inside { out }, style, value);
    end_shown(out, shown)
}

/// Reports a value as `Display` shows it, and whether that failed.
pub fn show_display<T: fmt::Display>(out: &mut Out, value: &T) -> Result<(), Halt> {
    io::Write::write_all(out, b"{\"shown\":\"")?;
    let shown = write!(Inside { out }, "{value}");
    end_shown(out, shown)
}

/// Reports a value as `Debug` shows it, and whether that failed.
pub fn show_debug<T: fmt::Debug>(out: &mut Out, value: &T) -> Result<(), Halt> {
    io::Write::write_all(out, b"{\"shown\":\"")?;
    let shown = write!(Inside { out }, "{value:?}");
    end_shown(out, shown)
}

/// Ends the report of a value that was shown.
fn end_shown(out: &mut Out, shown: fmt::Result) -> Result<(), Halt> {
    let end: &[u8] = if shown.is_ok() {
        b"\"}"
    } else {
        b"\",\"failed\":true}"
    };
    Ok(io::Write::write_all(out, end)?)
}

/// Shows a value in a style.
fn write_in<T: fmt::Display + fmt::Debug>(
    out: &mut Inside<'_>,
    style: &str,
    value: &T,
) -> fmt::Result {
    match style {
        "{:#}" => write!(out, "{value:#}"),
        "{:>40}" => write!(out, "{value:>40}"),
        "{:.3}" => write!(out, "{value:.3}"),
        "{:+}" => write!(out, "{value:+}"),
        "{:*^#60.7}" => write!(out, "{value:*^#60.7}"),
        "{:?}" => write!(out, "{value:?}"),
        "{:#?}" => write!(out, "{value:#?}"),
        _ => write!(out, "{value}"),
    }
}
