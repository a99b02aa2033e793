// How packs record an ID.
ghost use Rattle.std.specs.Prelude.{◌≡◌, ◌<◌, length, drop, MatchOption};
ghost use Rattle.drive.specs.Disk.{condition_of};
ghost use Rattle.pack.specs.Layout.{id_of};

use drive::sector::{Condition, IdField, SectorId};

// what stands for an ID where none is recorded
// kept: every place has an ID by what a drive owes, off the drive too: there is no Option in the trait
pub const NO_ID: IdField = IdField {
    id: SectorId {
        flag: 0,
        cylinder: 0,
        head: 0,
        sector: 0,
    },
    condition: Condition::Spoiled,
};

// Takes an ID record apart: flag, cylinder (high byte first), head and sector, and the rest.
pub fn take_id(bytes: &[u8]) -> Option<(SectorId, &[u8])>
    ensures { MatchOption result (length bytes.now < 5) (λ x. (x.0 ≡ id_of bytes.now 0) × (x.1.now ≡ drop 5 bytes.now)) }
{
    let [flag, cylinder_high, cylinder_low, head, sector, rest @ ..] = bytes else {
        return None;
    };
    let id = SectorId {
        flag: *flag,
        cylinder: u16::from_be_bytes([*cylinder_high, *cylinder_low]),
        head: *head,
        sector: *sector,
    };
    Some((id, rest))
}

// what a condition byte says
pub fn condition(byte: u8) -> Condition
    ensures { result ≡ condition_of byte }
{
    Condition::from(byte)
}
