//! Calls of `git_audit` over the parts of a text that are hidden.
//!
//! `text` is the text. The result is its pieces in their order, each `shown` or `hidden`. Neighbours of one kind are
//! joined.

use crate::bytes::write_inside;
use crate::halt::Halt;
use crate::order::{Order, unknown};
use crate::report::Out;
use git_audit::secret::{Piece, secrets};
use std::alloc::Global;
use std::io::{self, Write};

/// Whether a call is over hidden parts, by the module in its name.
pub fn has(name: &str) -> bool {
    name.starts_with("secret::")
}

/// Makes the call of an order.
pub fn make(alloc: Global, order: Order<'_>, out: &mut Out) -> Result<(), Halt> {
    let text = order.bytes(alloc, "text")?;
    let outcome = match order.call() {
        "" => Ok(()),
        "secret::secrets" => report_pieces(out, text.as_slice()),
        call => unknown(call),
    };
    drop(text);
    outcome
}

/// Reports the pieces of a text.
fn report_pieces(out: &mut Out, text: &[u8]) -> Result<(), Halt> {
    out.write_all(b"[")?;
    let mut last = None;
    for piece in secrets(text) {
        let (is_hidden, bytes) = match piece {
            Piece::Shown(bytes) => (false, bytes),
            Piece::Hidden(bytes) => (true, bytes),
        };
        if last != Some(is_hidden) {
            begin_piece(out, last.is_some(), is_hidden)?;
        }
        write_inside(out, bytes)?;
        last = Some(is_hidden);
    }
    out.write_all(if last.is_some() { b"\"}]" } else { b"]" })?;
    Ok(())
}

/// Begins a piece, and ends the one before it if there is one.
fn begin_piece(out: &mut Out, is_later: bool, is_hidden: bool) -> io::Result<()> {
    if is_later {
        out.write_all(b"\"},")?;
    }
    out.write_all(if is_hidden {
        b"{\"hidden\":\""
    } else {
        b"{\"shown\":\""
    })
}
