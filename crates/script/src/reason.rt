// Why a line can't be read.
ghost use Rattle.std.specs.Prelude.{◌≡◌, Some};
ghost use Rattle.script.specs.Reasons.{reason_text};

use std::fmt;

#[derive(Clone, Copy)]
pub enum Reason {
    // the first word, or the kind behind `storage`, `pack` or `show`
    UnknownWord,
    WordMissing,
    WordTooMany,
    // other letters than digits, or a value out of range
    NoNumber,
    // a mark on neither `id` nor `data`
    NoField,
    TooManyWords,
}

impl Reason {
    pub fn text(self) -> &'static str
        ensures { result.now ≡ reason_text self }
    {
        match self {
            Reason::UnknownWord => "unknown word",
            Reason::WordMissing => "a word is missing",
            Reason::WordTooMany => "a word too many",
            Reason::NoNumber => "not a number in range",
            Reason::NoField => "a mark is on id or data",
            Reason::TooManyWords => "at most 65536 words are shown",
        }
    }
}

// Written in plain English.
impl fmt::Display for Reason {
    ghost output = { λ x. Some (reason_text x) };

    fn fmt<W: fmt::Write>(&self, f: &mut fmt::Formatter<W>) -> fmt::Result {
        f.write_str(self.text())
    }
}
