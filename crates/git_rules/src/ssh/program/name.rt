//! The last name of a path, and of the first program of a command line, read byte by byte.
//!
//! Only the first bytes of a name are kept, one more than the longest known name has. A command line is split as in
//! the definitions (`specs/CommandLines.antt`).

ghost use Rattle.std.specs.Prelude.{◌≡◌, ◌++◌, ◌∷◌, [], ℕ, List, MatchOption, None, Option, Some, take};
ghost use Rattle.git_rules.specs.CommandLines.{base_name, first_word, line_words_from};
ghost use Rattle.git_rules.specs.BaseNames.{IsNameOf, IsReadTo, most_kept, spot_of, words_by};

/// The number of bytes kept of a name: one more than `tortoiseplink.exe` has.
const MOST_KEPT: usize = 18;

/// The last name of a path that is read up to some byte.
#[derive(Drop)]
pub(super) struct BaseName {
    /// The first bytes of the name; the bytes from `len` on are not part of it.
    bytes: [u8; MOST_KEPT],
    /// The number of bytes of the name.
    len: usize,
    /// Whether the last byte so far is a slash, so that the next other byte begins a name.
    is_ended: bool,
}

/// The name of the first program of a command line that is read up to some byte.
#[derive(Drop)]
struct FirstWord {
    /// The last name of the first word.
    name: BaseName,
    /// The context of the next byte.
    spot: Spot,
    /// Whether the next byte is in the first word.
    is_first: bool,
}

/// The context of a byte in a command line.
#[derive(Clone, Copy)]
enum Spot {
    /// Outside of quotes.
    Bare,
    /// In single quotes.
    Single,
    /// In double quotes.
    Double,
    /// After a backslash outside of quotes.
    Escaped,
    /// After a backslash in double quotes.
    EscapedInDouble,
}

/// The role of a byte in a command line, with the context of the next byte.
#[derive(Clone, Copy)]
enum Step {
    /// White space, which ends a word.
    Gap,
    /// A quote or a backslash, which isn't part of a word.
    Mark(Spot),
    /// A byte of a word.
    Part(Spot),
}

impl BaseName {
    /// The state for the empty path, which has no name.
    fn new() -> BaseName
        ensures { IsNameOf result [] }
    {
        BaseName {
            bytes: [0; MOST_KEPT],
            len: 0,
            is_ended: false,
        }
    }

    /// Reads one more byte of the path.
    fn put(&mut self, byte: u8)
        ensures { (path : List ℕ) → IsNameOf self.old path → IsNameOf self.new (path ++ byte ∷ []) }
    {
        if byte == b'/' {
            self.is_ended = true;
            return;
        }
        if self.is_ended {
            self.bytes[0] = byte;
            self.len = 1;
            self.is_ended = false;
            return;
        }
        if self.len < MOST_KEPT {
            self.bytes[self.len] = byte;
            self.len += 1;
        }
    }

    /// The first bytes of the name.
    pub(super) fn as_bytes(&self) -> &[u8]
        ensures { (path : List ℕ) → IsNameOf self.now path → result.now ≡ take most_kept (base_name path) }
    {
        self.bytes.split_at(self.len.min(MOST_KEPT)).0
    }
}

/// Returns the last name of a path.
pub(super) fn name_of_path(path: &[u8]) -> BaseName
    ensures { IsNameOf result path.now }
{
    let mut name = BaseName::new();
    for byte in path {
        name.put(*byte);
    }
    name
}

/// Returns the last name of the first program of a command line, or `None` if Git can't split the line.
pub(super) fn name_of_line(line: &[u8]) -> Option<BaseName>
    ensures { MatchOption result (first_word line.now ≡ None)
        (λ name. (word : List ℕ) × (first_word line.now ≡ Some word) × IsNameOf name word) }
{
    let mut word = FirstWord {
        name: BaseName::new(),
        spot: Spot::Bare,
        is_first: true,
    };
    for byte in line {
        word.put(*byte);
    }
    match word.spot {
        Spot::Bare => Some(word.name),
        _ => None,
    }
}

impl FirstWord {
    /// Reads one more byte of the line.
    fn put(&mut self, byte: u8)
        ensures { (rest : List ℕ) (whole : Option (List ℕ)) → IsReadTo self.old (byte ∷ rest) whole
            → IsReadTo self.new rest whole }
    {
        match read(self.spot, byte) {
            Step::Gap => {
                self.spot = Spot::Bare;
                self.is_first = false;
            }
            Step::Mark(spot) => self.spot = spot,
            Step::Part(spot) => {
                self.spot = spot;
                if !self.is_first {
                    return;
                }
                self.name.put(byte);
            }
        }
    }
}

/// The role of a byte in this context.
fn read(spot: Spot, byte: u8) -> Step
    ensures { (rest : List ℕ) → line_words_from (spot_of spot) (byte ∷ rest) ≡ words_by byte result rest }
{
    match spot {
        Spot::Bare => read_bare(byte),
        Spot::Single => {
            if byte == b'\'' {
                return Step::Mark(Spot::Bare);
            }
            Step::Part(Spot::Single)
        }
        Spot::Double => {
            if byte == b'"' {
                return Step::Mark(Spot::Bare);
            }
            if byte == b'\\' {
                return Step::Mark(Spot::EscapedInDouble);
            }
            Step::Part(Spot::Double)
        }
        Spot::Escaped => Step::Part(Spot::Bare),
        Spot::EscapedInDouble => Step::Part(Spot::Double),
    }
}

/// The role of a byte outside of quotes.
fn read_bare(byte: u8) -> Step
    ensures { (rest : List ℕ)
        → line_words_from (spot_of Spot.Bare) (byte ∷ rest) ≡ words_by byte result rest }
{
    if byte == b'\t' || byte == b'\n' || byte == b'\r' || byte == b' ' {
        return Step::Gap;
    }
    if byte == b'\'' {
        return Step::Mark(Spot::Single);
    }
    if byte == b'"' {
        return Step::Mark(Spot::Double);
    }
    if byte == b'\\' {
        return Step::Mark(Spot::Escaped);
    }
    Step::Part(Spot::Bare)
}
