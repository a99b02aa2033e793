// A track of a plain pack is made fresh.
ghost use Rattle.std.specs.Prelude.{◌≡◌, ◌+◌, ◌*◌, ◌≤◌, true, length, is_err, if◌then◌else◌, Ok, Err};
ghost use Rattle.std.proofs.Math.Seq.{paste};
ghost use Rattle.basics.specs.declared.refusal.Refusal.TheVariants.{NoSuchPlace};
ghost use Rattle.drive.specs.Disk.{on_drive};
ghost use Rattle.pack.specs.Fresh.{fresh_record, fresh_track, refreshed};
ghost use Rattle.pack.specs.Plain.{place_number, plain_disk};

use crate::plain_pack::{DATA_AT, PLACE_BYTES, PlainPack};
use basics::refusal::Refusal;
use drive::geometry::Track;

// The sectors of a fresh track by place: the even places carry 0 to 29, the odd ones 30 to 59.
pub const ORDER: [u8; 60] = [
    0, 30, 1, 31, 2, 32, 3, 33, 4, 34, 5, 35, 6, 36, 7, 37, 8, 38, 9, 39, 10, 40, 11, 41, 12, 42,
    13, 43, 14, 44, 15, 45, 16, 46, 17, 47, 18, 48, 19, 49, 20, 50, 21, 51, 22, 52, 23, 53, 24, 54,
    25, 55, 26, 56, 27, 57, 28, 58, 29, 59,
];

// Writes a fresh place at `at`: good, flag zero, the track's own cylinder and head, zero data.
fn put_fresh(pack: &mut [u8], at: usize, track: Track, sector: u8)
    requires { at + 264 ≤ length pack.old }
    ensures { pack.new ≡ paste pack.old at (fresh_record track sector) 264 }
{
    let [cylinder_high, cylinder_low] = track.cylinder.to_be_bytes();
    let header = [0, 0, 0, cylinder_high, cylinder_low, track.head, sector, 0];
    pack[at..at + DATA_AT].copy_from_slice(&header);
    pack[at + DATA_AT..at + PLACE_BYTES].fill(0);
}

// Writes the sixty places of a fresh track from `at` on.
fn put_fresh_track(pack: &mut [u8], at: usize, track: Track)
    requires { at + 15840 ≤ length pack.old }
    ensures { pack.new ≡ paste pack.old at (fresh_track track) 15840 }
{
    for (place, sector) in ORDER.iter().enumerate() {
        put_fresh(pack, at + place * PLACE_BYTES, track, *sector);
    }
}

impl PlainPack {
    // Makes a track fresh: good IDs with flag zero in the order of sixty, and good zero data.
    pub fn fresh_track(&mut self, track: Track) -> Result<(), Refusal>
        ensures answer { result ≡ (if on_drive self.old.heads track 0 then Ok tt else Err NoSuchPlace) }
        ensures bytes { self.new.bytes.items ≡ (if on_drive self.old.heads track 0 then paste self.old.bytes.items (place_number self.old.heads track 0 * 264) (fresh_track track) 15840 else self.old.bytes.items) }
        ensures after { plain_disk self.new.heads self.new.bytes.items ≡ (if on_drive self.old.heads track 0 then refreshed (plain_disk self.old.heads self.old.bytes.items) track else plain_disk self.old.heads self.old.bytes.items) }
        ensures refused { is_err result ≡ true → self.new ≡ self.old }
    {
        let at = self.start(track, 0).ok_or(Refusal::NoSuchPlace)?;
        put_fresh_track(self.bytes.as_mut_slice(), at, track);
        Ok(())
    }
}
