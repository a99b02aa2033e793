// Where the parts of a chained pack lie: the header, and the records behind it.
ghost use Rattle.std.specs.Prelude.{◌≡◌, ◌+◌, ◌<◌, ◌≤◌, length};
ghost use Rattle.chained_pack.specs.Format.{word_at, heads_of, start_of, head_of, directory};

use crate::image::Image;

// bytes of the header: the text, the heads, a zero, the count of records in use, the first indexes
pub(crate) const HEADER_BYTES: usize = 136;

// bytes of a record: its front, the ID, the data
pub(crate) const RECORD_BYTES: usize = 268;

// where in the header the heads and the count of records in use stand, and the first indexes begin
const HEADS_AT: usize = 4;

pub(crate) const COUNT_AT: usize = 6;

const FIRSTS_AT: usize = 8;

// where in a record the conditions and the ID begin, and the data
pub(crate) const ID_CONDITION_AT: usize = 5;

pub(crate) const DATA_AT: usize = 12;

// chains of a pack
pub(crate) const CHAINS: u16 = 64;

// The front of a record.
#[derive(Clone, Copy)]
pub struct RecordHead {
    pub next: u16,
    pub track: u16,
    pub place: u8,
    pub id_condition: u8,
    pub data_condition: u8,
}

// two bytes, high byte first
pub(crate) fn word_at(bytes: &[u8], at: usize) -> u16
    requires { at + 2 ≤ length bytes.now }
    ensures { result ≡ word_at bytes.now at }
{
    u16::from_be_bytes([bytes[at], bytes[at + 1]])
}

// where a record begins; records are numbered from 1
pub(crate) fn start(index: u16) -> usize
    requires { 1 ≤ index }
    ensures { result ≡ start_of index }
{
    HEADER_BYTES + (usize::from(index) - 1) * RECORD_BYTES
}

impl Image<'_> {
    // the heads of the drive
    pub(crate) fn heads(self) -> u8
        ensures { result ≡ heads_of self.entry.bytes.now }
    {
        self.bytes[HEADS_AT]
    }

    // the count of records in use
    pub(crate) fn count(self) -> u16
        ensures { result ≡ (directory self.entry.bytes.now).count }
    {
        word_at(self.bytes, COUNT_AT)
    }

    // the first index of a chain; chains are counted mod 64
    pub(crate) fn first(self, chain: u16) -> u16
        ensures { result ≡ (directory self.entry.bytes.now).first chain }
    {
        word_at(self.bytes, FIRSTS_AT + usize::from(chain % CHAINS) * 2)
    }

    // the front of a record in use
    pub(crate) fn head(self, index: u16) -> RecordHead
        requires { (1 ≤ index) × (index ≤ (directory self.bytes.now).count) }
        ensures { result ≡ head_of self.entry.bytes.now index }
    {
        let [
            next_high,
            next_low,
            track_high,
            track_low,
            place,
            id_condition,
            data_condition,
            ..
        ] = &self.bytes[start(index)..]
        else {
            unreachable()
        };
        RecordHead {
            next: u16::from_be_bytes([*next_high, *next_low]),
            track: u16::from_be_bytes([*track_high, *track_low]),
            place: *place,
            id_condition: *id_condition,
            data_condition: *data_condition,
        }
    }
}
