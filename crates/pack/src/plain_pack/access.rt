// What a plain pack answers as a drive.
ghost use Rattle.std.specs.Prelude.{◌≡◌, ◌+◌, ◌*◌, ◌≤◌, true, false, length, is_err, vec_len, Ok, Err, MatchOption, MatchResult, slice_index, slice_set};
ghost use Rattle.std.proofs.Math.Seq.{paste};
ghost use Rattle.drive.specs.Disk.{condition_of, on_drive, blank, accepts, written};
ghost use Rattle.pack.specs.Layout.{IsRecorded, id_of};
ghost use Rattle.pack.specs.Plain.{StandsFor, place_number, plain_disk};

use crate::id_record::{NO_ID, condition, take_id};
use crate::plain_pack::{DATA_AT, PLACE_BYTES, PlainPack};
use crate::sector_at::{Recorded, SectorAt};
use basics::refusal::Refusal;
use drive::drive::Drive;
use drive::geometry::{PLACES, SECTOR_BYTES, Track};
use drive::sector::{Condition, IdField};

impl PlainPack {
    // where the bytes of a place begin, if it is on the drive
    pub(crate) fn start(&self, track: Track, place: u8) -> Option<usize>
        ensures { MatchOption result (on_drive self.now.heads track place ≡ false) (λ at. (on_drive self.now.heads track place ≡ true) × (at ≡ place_number self.now.heads track place * 264) × (at + 264 ≤ vec_len self.now.bytes)) }
    {
        if !track.has_place(self.heads, place) {
            return None;
        }
        let number = (track.cylinder as usize * self.heads as usize + track.head as usize)
            * PLACES as usize
            + place as usize;
        Some(number * PLACE_BYTES)
    }

    // where the sector of a place stands, if it is on the drive
    fn stands_at(&self, track: Track, place: u8) -> Option<SectorAt>
        ensures { MatchOption result (on_drive self.now.heads track place ≡ false) (StandsFor self.now.heads self.now.bytes.items track place) }
    {
        let front = self.start(track, place)?;
        Some(SectorAt {
            front,
            body: front + DATA_AT,
        })
    }

    // the sector of a place, if it is on the drive
    fn sector(&self, track: Track, place: u8) -> Option<Recorded<'_>>
        ensures { MatchOption result ((plain_disk self.now.heads self.now.bytes.items).sector track place ≡ blank) (λ r. IsRecorded ((plain_disk self.now.heads self.now.bytes.items).sector track place) r.id r.data_condition r.bytes.now) }
    {
        self.stands_at(track, place)?.in_pack(&self.bytes)
    }

    // where the sector of a place stands, if its ID is good
    fn good_sector(&self, track: Track, place: u8) -> Result<SectorAt, Refusal>
        ensures { MatchResult result (λ at. StandsFor self.now.heads self.now.bytes.items track place at × (Ok tt ≡ accepts (plain_disk self.now.heads self.now.bytes.items) track place)) (λ e. Err e ≡ accepts (plain_disk self.now.heads self.now.bytes.items) track place) }
    {
        let at = self.stands_at(track, place).ok_or(Refusal::NoSuchPlace)?;
        match at.in_pack(&self.bytes) {
            Some(sector) if sector.id.condition.is_good() => Ok(at),
            _ => Err(Refusal::NoSuchPlace),
        }
    }
}

// The ID of a place, by its bytes.
fn id_field(place: &[u8]) -> IdField
    requires { 264 ≤ length place.now }
    ensures { result ≡ record { id = id_of place.now 2; condition = condition_of (slice_index place.now 0) } }
{
    let [id_condition, _data_condition, rest @ ..] = place else {
        return NO_ID;
    };
    match take_id(rest) {
        Some((id, _)) => IdField {
            id,
            condition: condition(*id_condition),
        },
        None => NO_ID,
    }
}

// kept: the chained pack's methods read alike, but one impl for both packs would be of another crate's trait for any type
impl Drive for PlainPack {
    ghost meaning = { λ d. plain_disk d.heads d.bytes.items };

    ghost lawful = { λ d. d.drive };

    fn heads(&self) -> u8 {
        self.heads
    }

    fn id(&self, track: Track, place: u8) -> IdField {
        // kept: `sector` tests the length at each of the sixty places, and a search takes 1.8 to 2.6 times as long
        match self.start(track, place) {
            Some(at) => id_field(&self.bytes[at..at + PLACE_BYTES]),
            None => NO_ID,
        }
    }

    fn data_condition(&self, track: Track, place: u8) -> Condition {
        match self.start(track, place) {
            Some(at) => condition(self.bytes[at + 1]),
            None => Condition::Spoiled,
        }
    }

    fn read(&self, track: Track, place: u8) -> Result<&[u8], Refusal> {
        match self.sector(track, place) {
            Some(sector) if sector.id.condition.is_good() => Ok(sector.bytes),
            _ => Err(Refusal::NoSuchPlace),
        }
    }

    // Besides what every drive owes: of the pack's bytes only the data and their condition change.
    fn write(&mut self, track: Track, place: u8, bytes: &[u8; SECTOR_BYTES]) -> Result<(), Refusal>
        ensures answer { result ≡ accepts (plain_disk self.old.heads self.old.bytes.items) track place }
        ensures after { plain_disk self.new.heads self.new.bytes.items ≡ written (plain_disk self.old.heads self.old.bytes.items) track place bytes.now }
        ensures refused { is_err result ≡ true → self.new ≡ self.old }
        ensures kept { is_err result ≡ false → self.new.bytes.items ≡ paste (slice_set self.old.bytes.items (place_number self.old.heads track place * 264 + 1) 0) (place_number self.old.heads track place * 264 + 8) bytes.now 256 }
    {
        let at = self.good_sector(track, place)?;
        at.put_data(self.bytes.as_mut_slice(), bytes)
    }
}
