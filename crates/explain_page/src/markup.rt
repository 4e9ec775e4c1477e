//! HTML text of a page, to which a caller can add only in the ways below.
//!
//! A text of the template is a constant of this program, and is added unchanged. A text of JSON is added with an escape
//! in place of each `<`, so that it ends no element. All other text is escaped, so that no byte of it begins a tag or
//! ends the value of an attribute.

ghost use Rattle.std.specs.Prelude.{◌≡◌, List, ℕ, ◌++◌, [], true, IfSome, OnOk, flat_map};
ghost use Rattle.std.specs.List.{list_all};
ghost use Rattle.explain_page.specs.Markup as spec;
ghost use Rattle.explain_page.specs.Markup.{escaped, escaped_byte, has_no_markup, has_no_tag, island, island_byte};

use explain_report::text::line::Shown;
use std::alloc::{AllocError, Global};
use std::fmt::{Display, Write};
use std::marker::Model;

/// HTML text of a page. In contracts it is its bytes.
#[derive(Drop)]
pub struct Markup {
    alloc: Global,
    bytes: Vec<u8>,
}

impl Model for Markup {
    ghost Value = { List ℕ };

    ghost view = { λ it. it.bytes.items };
}

impl Markup {
    /// Returns an empty text.
    pub fn new(alloc: Global) -> Markup
        ensures { result ≡ [] }
    {
        Markup {
            alloc,
            bytes: Vec::new(alloc),
        }
    }

    /// Returns the bytes.
    pub fn as_bytes(&self) -> &[u8]
        ensures { result.now ≡ self.now }
    {
        self.bytes.as_slice()
    }

    /// Appends a text of the template, unchanged.
    pub fn push_template(&mut self, piece: &'static str) -> Result<(), AllocError>
        ensures { OnOk result (self.new ≡ self.old ++ piece.now) }
    {
        self.bytes.extend_from_slice(piece.as_bytes())
    }

    /// Appends a text, escaped.
    pub fn push_text(&mut self, text: &str) -> Result<(), AllocError>
        ensures escaped { OnOk result (self.new ≡ self.old ++ escaped text.now) }
        ensures no_markup { OnOk result
            ((added : List ℕ) × (self.new ≡ self.old ++ added) × (has_no_markup added ≡ true)) }
    {
        push_escaped(&mut self.bytes, text.as_bytes())
    }

    /// Appends a value as it is formatted, escaped.
    pub fn push_value<D: Display + Drop>(&mut self, value: D) -> Result<(), AllocError>
        ensures value { IfSome (D.Display.output value)
            (λ text. OnOk result (self.new ≡ self.old ++ escaped text)) }
        ensures no_markup { OnOk result
            ((added : List ℕ) × (self.new ≡ self.old ++ added) × (has_no_markup added ≡ true)) }
    {
        let mut text = String::new(self.alloc);
        write!(text, "{value}")?;
        let pushed = self.push_text(text.as_str());
        drop(text);
        pushed
    }

    /// Appends a text of the input as it is shown, escaped. A plain text is shown unchanged.
    pub fn push_shown(&mut self, text: &[u8]) -> Result<(), AllocError>
        ensures plain { list_all spec.is_plain text.now ≡ true
            → OnOk result (self.new ≡ self.old ++ escaped text.now) }
        ensures no_markup { OnOk result
            ((added : List ℕ) × (self.new ≡ self.old ++ added) × (has_no_markup added ≡ true)) }
    {
        if text.iter().all(|byte| is_plain(*byte)) {
            return push_escaped(&mut self.bytes, text);
        }
        self.push_value(Shown(text))
    }

    /// Appends a text of JSON, in which `<` occurs only in strings.
    pub fn push_json(&mut self, text: &str) -> Result<(), AllocError>
        ensures escaped { OnOk result (self.new ≡ self.old ++ island text.now) }
        ensures no_tag { OnOk result
            ((added : List ℕ) × (self.new ≡ self.old ++ added) × (has_no_tag added ≡ true)) }
    {
        push_island(&mut self.bytes, text.as_bytes())
    }
}

/// Whether the byte is shown unchanged.
fn is_plain(byte: u8) -> bool
    ensures { result ≡ spec.is_plain byte }
{
    matches!(byte, b' '..=b'~') && byte != b'\\'
}

/// Appends a text, with character references in place of the bytes of markup.
fn push_escaped(out: &mut Vec<u8>, text: &[u8]) -> Result<(), AllocError>
    ensures { OnOk result (out.new.items ≡ out.old.items ++ flat_map escaped_byte text.now) }
{
    for byte in text {
        match *byte {
            b'<' => out.extend_from_slice(b"&lt;")?,
            b'>' => out.extend_from_slice(b"&gt;")?,
            b'&' => out.extend_from_slice(b"&amp;")?,
            b'"' => out.extend_from_slice(b"&quot;")?,
            b'\'' => out.extend_from_slice(b"&#39;")?,
            other => out.push(other)?,
        }
    }
    Ok(())
}

/// Appends a text, with the JSON escape in place of each `<`.
fn push_island(out: &mut Vec<u8>, text: &[u8]) -> Result<(), AllocError>
    ensures { OnOk result (out.new.items ≡ out.old.items ++ flat_map island_byte text.now) }
{
    for byte in text {
        match *byte {
            b'<' => out.extend_from_slice(b"\\u003c")?,
            other => out.push(other)?,
        }
    }
    Ok(())
}
