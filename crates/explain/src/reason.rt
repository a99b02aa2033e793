// The reasons in status word 1 that the card gives.
ghost use Rattle.std.specs.Prelude.{◌≡◌, ◌*◌, ◌^◌, ◌<◌};
ghost use Rattle.explain.specs.Bits.{reason_mask, ReasonsExplained};

use crate::bit::Bit;

#[derive(Clone, Copy, PartialEq, Eq, Debug)]
pub enum Reason {
    EndOfTrack,
    NoRecordFound,
    DataCheck,
    SeekCheck,
    NotReady,
}

// In order from bit 0, the highest.
pub const REASONS: [Reason; 5] = [
    Reason::EndOfTrack,
    Reason::NoRecordFound,
    Reason::DataCheck,
    Reason::SeekCheck,
    Reason::NotReady,
];

impl Bit for Reason {
    const HIGHEST: u16 = 0x8000;

    ghost HIGHEST = { 0x8000 };

    const DIGITS: usize = 4;

    ghost mask_of = { reason_mask };

    fn bit(self) -> u8
        ensures value { reason_mask self * 2 ^ result ≡ 0x8000 }
        ensures in_word { result < 16 }
        ensures explained { ReasonsExplained }
    {
        match self {
            Reason::EndOfTrack => 0,
            Reason::NoRecordFound => 3,
            Reason::DataCheck => 8,
            Reason::SeekCheck => 9,
            Reason::NotReady => 15,
        }
    }

    fn meaning(self) -> &'static str {
        match self {
            Reason::EndOfTrack => "end of track: sector 59 is done and bytes remain",
            Reason::NoRecordFound =>
                "no record found: none of the sixty IDs under the heads is the one asked for",
            Reason::DataCheck =>
                "data check: the data found are spoiled or, with no record found, a spoiled ID was passed",
            Reason::SeekCheck =>
                "seek check: the seek would go past the last cylinder; the heads did not move",
            Reason::NotReady => "not ready: the unit was not ready at a step",
        }
    }

    fn advice(self) -> &'static str {
        match self {
            Reason::EndOfTrack => "go on at sector 0 of the next track with the count that remains",
            Reason::NoRecordFound =>
                "compare flag, cylinder, head and sector of the control block with the IDs of the track under the heads",
            Reason::DataCheck => "list the track: write a spoiled sector anew, or move it aside",
            Reason::SeekCheck =>
                "recalibrate, then seek again with a difference counted from cylinder 0",
            Reason::NotReady => "make the unit ready and reset the card: the bit stays until then",
        }
    }
}
