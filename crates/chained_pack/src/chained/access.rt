// What a chained pack answers as a drive.
ghost use Rattle.std.specs.Prelude.{◌≡◌, ◌+◌, ◌≤◌, true, length, None, IfSome, Ok, Err, MatchOption, MatchResult, is_err, vec_len, slice_index};
ghost use Rattle.drive.specs.Disk.{condition_of, blank, accepts, written};
ghost use Rattle.pack.specs.Layout.{IsRecorded, id_of};
ghost use Rattle.chained_pack.specs.Format.{start_of, record_for, chained_disk, bytes_after, StandsFor};

use crate::chain::find;
use crate::chained::ChainedPack;
use crate::image::{Chains, Image};
use crate::layout::{DATA_AT, ID_CONDITION_AT, RECORD_BYTES, start};
use basics::refusal::Refusal;
use drive::drive::Drive;
use drive::geometry::{SECTOR_BYTES, Track};
use drive::sector::{Condition, IdField};
use pack::id_record::{NO_ID, condition, take_id};
use pack::sector_at::{Recorded, SectorAt};

impl ChainedPack {
    fn chains(&self) -> Chains<'_>
        ensures { result.image.bytes.now ≡ self.now.bytes.items }
    {
        let image = Image {
            bytes: self.bytes.as_slice(),
        };
        Chains { image }
    }

    // the record of a place, if it has one
    fn index_of(&self, track: Track, place: u8) -> Option<u16>
        ensures found { result ≡ record_for self.now.bytes.items track place }
        ensures within { IfSome result (λ i. (1 ≤ i) × (start_of i + 268 ≤ vec_len self.now.bytes)) }
    {
        let chains = self.chains();
        let heads = chains.image.heads();
        if !track.has_place(heads, place) {
            return None;
        }
        let number = track.cylinder * heads as u16 + track.head as u16;
        find(chains, number, place)
    }

    // where the sector of a place stands, if it has a record
    fn stands_at(&self, track: Track, place: u8) -> Option<SectorAt>
        ensures { MatchOption result (record_for self.now.bytes.items track place ≡ None) (StandsFor self.now.bytes.items track place) }
    {
        let at = start(self.index_of(track, place)?);
        Some(SectorAt {
            front: at + ID_CONDITION_AT,
            body: at + DATA_AT,
        })
    }

    // the sector of a place, if it has a record
    fn sector(&self, track: Track, place: u8) -> Option<Recorded<'_>>
        ensures { MatchOption result ((chained_disk self.now.bytes.items).sector track place ≡ blank) (λ r. IsRecorded ((chained_disk self.now.bytes.items).sector track place) r.id r.data_condition r.bytes.now) }
    {
        self.stands_at(track, place)?.in_pack(&self.bytes)
    }

    // where the sector of a place stands, if its ID is good
    fn good_sector(&self, track: Track, place: u8) -> Result<SectorAt, Refusal>
        ensures { MatchResult result (λ at. StandsFor self.now.bytes.items track place at × (Ok tt ≡ accepts (chained_disk self.now.bytes.items) track place)) (λ e. Err e ≡ accepts (chained_disk self.now.bytes.items) track place) }
    {
        let at = self.stands_at(track, place).ok_or(Refusal::NoSuchPlace)?;
        match at.in_pack(&self.bytes) {
            Some(sector) if sector.id.condition.is_good() => Ok(at),
            _ => Err(Refusal::NoSuchPlace),
        }
    }
}

// The ID of a record, by its bytes.
fn id_field(bytes: &[u8]) -> IdField
    requires { 268 ≤ length bytes.now }
    ensures { result ≡ record { id = id_of bytes.now 7; condition = condition_of (slice_index bytes.now 5) } }
{
    let Some((id, _)) = take_id(&bytes[ID_CONDITION_AT + 2..]) else {
        unreachable()
    };
    IdField {
        id,
        condition: condition(bytes[ID_CONDITION_AT]),
    }
}

impl Drive for ChainedPack {
    ghost meaning = { λ d. chained_disk d.bytes.items };

    ghost lawful = { λ d. d.drive };

    fn heads(&self) -> u8 {
        self.chains().image.heads()
    }

    fn id(&self, track: Track, place: u8) -> IdField {
        // kept: by its bytes; with the call of `sector` here a search of either pack takes a twelfth more instructions
        match self.index_of(track, place) {
            Some(index) => {
                let at = start(index);
                id_field(&self.bytes[at..at + RECORD_BYTES])
            }
            None => NO_ID,
        }
    }

    fn data_condition(&self, track: Track, place: u8) -> Condition {
        self.sector(track, place)
            .map_or(Condition::Spoiled, |sector| sector.data_condition)
    }

    fn read(&self, track: Track, place: u8) -> Result<&[u8], Refusal> {
        match self.sector(track, place) {
            Some(sector) if sector.id.condition.is_good() => Ok(sector.bytes),
            _ => Err(Refusal::NoSuchPlace),
        }
    }

    fn write(&mut self, track: Track, place: u8, bytes: &[u8; SECTOR_BYTES]) -> Result<(), Refusal>
        ensures answer { result ≡ accepts (chained_disk self.old.bytes.items) track place }
        ensures after { chained_disk self.new.bytes.items ≡ written (chained_disk self.old.bytes.items) track place bytes.now }
        ensures refused { is_err result ≡ true → self.new ≡ self.old }
        ensures bytes { self.new.bytes.items ≡ bytes_after self.old.bytes.items track place bytes.now }
    {
        let at = self.good_sector(track, place)?;
        at.put_data(self.bytes.as_mut_slice(), bytes)
    }
}
