// Why a pack, a storage or a layer refuses a call.
ghost use Rattle.std.specs.Prelude.{◌≡◌, Some};
ghost use Rattle.basics.specs.Numbers.{refusal_number, refusal_word};

use std::fmt;

#[derive(Clone, Copy, PartialEq, Eq, Debug)]
pub enum Refusal {
    // a pack or a storage of no lawful size, keys that are not one a block, or more records than there is room for
    Length = 21,
    // the text, the heads or a zero byte of a pack
    Header = 22,
    // a track, a place or a condition out of range
    Record = 24,
    // a bad index, a loop, a wrong chain or a record left over
    Chain = 25,
    // one place recorded twice
    Double = 26,
    // off the drive, at a spoiled ID, or no word of the storage
    NoSuchPlace = 28,
    // no free entry in a table of marks
    MarksFull = 29,
}

impl Refusal {
    pub fn number(self) -> u8
        ensures { result ≡ refusal_number self }
    {
        self as u8
    }

    pub fn word(self) -> &'static str
        ensures { result.now ≡ refusal_word self }
    {
        match self {
            Refusal::Length => "length",
            Refusal::Header => "header",
            Refusal::Record => "record",
            Refusal::Chain => "chain",
            Refusal::Double => "double",
            Refusal::NoSuchPlace => "no such place",
            Refusal::MarksFull => "marks full",
        }
    }
}

// Written as its word.
impl fmt::Display for Refusal {
    ghost output = { λ x. Some (refusal_word x) };

    fn fmt<W: fmt::Write>(&self, f: &mut fmt::Formatter<W>) -> fmt::Result {
        f.write_str(self.word())
    }
}
