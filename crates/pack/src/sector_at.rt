// Where a sector stands among the bytes of a pack, and what is done with it there.
ghost use Rattle.std.specs.Prelude.{◌≡◌, Ok, Err, length, MatchBool, MatchOption};
ghost use Rattle.basics.specs.declared.refusal.Refusal.TheVariants.{NoSuchPlace};
ghost use Rattle.pack.specs.Layout.{IsWithin, IsRecorded, sector_in, data_put_in};

use crate::id_record::{condition, take_id};
use basics::refusal::Refusal;
use drive::geometry::SECTOR_BYTES;
use drive::sector::{Condition, IdField};

// bytes of both conditions and the ID
const FRONT_BYTES: usize = 7;

// Both conditions and the ID stand from `front` on, its data from `body` on.
#[derive(Clone, Copy)]
pub struct SectorAt {
    pub front: usize,
    pub body: usize,
}

// A sector as it is recorded in a pack: its ID, and its data with their condition.
#[derive(Clone, Copy)]
pub struct Recorded<'a> {
    pub id: IdField,
    pub data_condition: Condition,
    pub bytes: &'a [u8],
}

impl SectorAt {
    // whether so many bytes have all of the sector, its data behind its ID
    fn is_within(self, len: usize) -> bool
        ensures { MatchBool result (IsWithin self len) (IsWithin self len → ⊥) }
    {
        self.body.saturating_sub(self.front) >= FRONT_BYTES
            && len.saturating_sub(self.body) >= SECTOR_BYTES
    }

    // The sector that stands there, if the pack has all of it.
    pub fn in_pack(self, pack: &[u8]) -> Option<Recorded<'_>>
        ensures { MatchOption result (IsWithin self (length pack.now) → ⊥) (λ r. IsWithin self (length pack.now) × IsRecorded (sector_in pack.now self) r.id r.data_condition r.bytes.now) }
    {
        if !self.is_within(pack.len()) {
            return None;
        }
        let Some((id, _)) = take_id(&pack[self.front + 2..]) else {
            unreachable()
        };
        Some(Recorded {
            id: IdField {
                id,
                condition: condition(pack[self.front]),
            },
            data_condition: condition(pack[self.front + 1]),
            bytes: &pack[self.body..self.body + SECTOR_BYTES],
        })
    }

    // Replaces the data, and makes it good, if the pack has all of the sector; else nothing changes.
    pub fn put_data(self, pack: &mut [u8], bytes: &[u8; SECTOR_BYTES]) -> Result<(), Refusal>
        ensures within { IsWithin self (length pack.old) → (result ≡ Ok tt) × (pack.new ≡ data_put_in pack.old self bytes.now) }
        ensures refused { (IsWithin self (length pack.old) → ⊥) → (result ≡ Err NoSuchPlace) × (pack.new ≡ pack.old) }
    {
        if !self.is_within(pack.len()) {
            return Err(Refusal::NoSuchPlace);
        }
        pack[self.front + 1] = u8::from(Condition::Good);
        pack[self.body..self.body + SECTOR_BYTES].copy_from_slice(bytes);
        Ok(())
    }
}
