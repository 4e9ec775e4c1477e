//! Sinks: the places that a text is put into, slice by slice.
//!
//! Putting two slices has the same effect as putting them joined, so putting a text slice by slice puts the
//! whole text. `Output` is a writer. `fill` has the sink for buffers, `show` the one for formatters, and
//! `settled` the one of the length test.

ghost use Rattle.std.specs.Prelude.{ℕ, List, [], ◌++◌, OnOk};
ghost use Rattle.std.specs.Io.KnownBytes.{Appends};
ghost use Rattle.std.proofs.KnownBytes.{Appends-nil, Appends-trans};
ghost use Rattle.git_syntax.specs.Bytes.{percent_sign};
ghost use Rattle.git_syntax.specs.Internal.Cuts.{CutsAt};
ghost use Rattle.git_syntax.specs.Escapes.{escaped_percents};

use std::io::{self, Write};

/// A way to put a text into a place of type `T`: slices that are UTF-8, and an end that may be any bytes.
pub trait Sink<T> {
    /// Why a place didn't accept a slice.
    type Fault: Drop;

    // The place after a slice was put.
    ghost takes: { T → List ℕ → T → Type 0 };

    // The place after the end was put.
    ghost ends: { T → List ℕ → T → Type 0 };

    /// Puts a slice.
    fn put(place: &mut T, slice: &str) -> Result<(), Self::Fault>
        ensures { OnOk result (takes place.old slice.now place.new) };

    /// Puts the end.
    fn write_end(place: &mut T, end: &[u8]) -> Result<(), Self::Fault>
        ensures { OnOk result (ends place.old end.now place.new) };

    ghost takes_nothing: { (a : T) → takes a [] a };

    ghost takes_joined: { (a b c : T) (x y : List ℕ) → takes a x b → takes b y c
        → takes a (x ++ y) c };

    ghost ends_joined: { (a b c : T) (x y : List ℕ) → takes a x b → ends b y c
        → ends a (x ++ y) c };
}

/// Puts the text with each `%` escaped.
#[inline(never)]
pub fn write_percents<T, S: Sink<T>>(place: &mut T, text: &str) -> Result<(), S::Fault>
    ensures { OnOk result (S.takes place.old (escaped_percents text.now) place.new) }
{
    let mut rest = text;
    while let Some((front, back)) = cut_at_percent(rest) {
        S::put(place, front)?;
        S::put(place, "%25")?;
        rest = back;
    }
    S::put(place, rest)
}

/// The text before and after the first `%`.
fn cut_at_percent(text: &str) -> Option<(&str, &str)>
    ensures { CutsAt percent_sign text.now result }
{
    text.split_once('%')
}

/// The sink for a writer.
pub struct Output;

impl<W: Write> Sink<W> for Output {
    type Fault = io::Error;

    ghost takes = { λ old text new. Appends (W.contents old) (W.contents new) text };

    ghost ends = { λ old text new. Appends (W.contents old) (W.contents new) text };

    fn put(place: &mut W, slice: &str) -> io::Result<()> {
        place.write_all(slice.as_bytes())
    }

    fn write_end(place: &mut W, end: &[u8]) -> io::Result<()> {
        place.write_all(end)
    }

    ghost takes_nothing = { λ a. Appends-nil (W.contents a) };

    ghost takes_joined = { λ a b c x y. Appends-trans (W.contents a) (W.contents b)
        (W.contents c) x y };

    ghost ends_joined = { λ a b c x y. Appends-trans (W.contents a) (W.contents b)
        (W.contents c) x y };
}
