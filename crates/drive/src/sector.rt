// The ID of a sector, and the condition of what is recorded.
ghost use Rattle.std.specs.Prelude.{◌≡◌, Some};
ghost use Rattle.drive.specs.Disk.{is_good, same_id, condition_word, condition_of, condition_byte};

use std::fmt;

// Whether a field can be read back as it was recorded.
#[derive(Clone, Copy, PartialEq, Eq, Debug)]
pub enum Condition {
    Good,
    Spoiled,
}

impl Condition {
    pub fn is_good(self) -> bool
        ensures { result ≡ is_good self }
    {
        matches!(self, Condition::Good)
    }
}

// Written as its word.
impl fmt::Display for Condition {
    ghost output = { λ x. Some (condition_word x) };

    fn fmt<W: fmt::Write>(&self, f: &mut fmt::Formatter<W>) -> fmt::Result {
        f.write_str(match self {
            Condition::Good => "good",
            Condition::Spoiled => "spoiled",
        })
    }
}

// A byte as it is recorded: 0 is good.
impl From<u8> for Condition {
    ghost from_gives = { λ b c. c ≡ condition_of b };

    fn from(byte: u8) -> Self {
        match byte {
            0 => Condition::Good,
            _ => Condition::Spoiled,
        }
    }
}

impl From<Condition> for u8 {
    ghost from_gives = { λ c b. b ≡ condition_byte c };

    fn from(condition: Condition) -> Self {
        match condition {
            Condition::Good => 0,
            Condition::Spoiled => 1,
        }
    }
}

// What names a sector on the track. It need not be where its number says: a sector may have been moved aside.
#[derive(Clone, Copy, PartialEq, Eq, Debug)]
pub struct SectorId {
    pub flag: u8,
    pub cylinder: u16,
    pub head: u8,
    pub sector: u8,
}

impl SectorId {
    // `==`, as contracts name it
    pub fn same_as(self, other: SectorId) -> bool
        ensures { result ≡ same_id self other }
    {
        self == other
    }
}

// The ID recorded at a place, with its condition.
#[derive(Clone, Copy, PartialEq, Eq, Debug)]
pub struct IdField {
    pub id: SectorId,
    pub condition: Condition,
}
