// A drive, by its meaning: its heads and, at each place of each track, the ID and the data with their conditions.
ghost use Rattle.std.specs.Prelude.{◌≡◌, true, is_err, Err, Option, Some, None, MatchResult};
ghost use Rattle.std.specs.Borrow.{GName};
ghost use Rattle.drive.specs.Disk.{Disk, Lawful, Reads, accepts, written};

use crate::geometry::{SECTOR_BYTES, Track};
use crate::sector::{Condition, IdField};
use basics::refusal::Refusal;

// Questions may be asked of every track and place; off the drive there is nothing but spoiled zeros.
// Data can be read, spoiled or not, and written exactly where the ID is good.
pub trait Drive {
    ghost meaning: { Self → Disk };

    // of a drive that is lent, which loan it is: no write makes another of it
    ghost loan: { Self → Option GName } = { λ _. None };

    // two or three
    fn heads(&self) -> u8
        ensures { result ≡ (meaning self.now).heads };

    fn id(&self, track: Track, place: u8) -> IdField
        ensures { result ≡ ((meaning self.now).sector track place).id };

    fn data_condition(&self, track: Track, place: u8) -> Condition
        ensures { result ≡ ((meaning self.now).sector track place).datum.condition };

    fn read(&self, track: Track, place: u8) -> Result<&[u8], Refusal>
        ensures { MatchResult result (λ bytes. Reads (meaning self.now) track place bytes.now) (λ e. Err e ≡ accepts (meaning self.now) track place) };

    fn write(&mut self, track: Track, place: u8, bytes: &[u8; SECTOR_BYTES]) -> Result<(), Refusal>
        ensures answer { result ≡ accepts (meaning self.old) track place }
        ensures after { meaning self.new ≡ written (meaning self.old) track place bytes.now }
        ensures refused { is_err result ≡ true → self.new ≡ self.old }
        ensures loan { loan self.new ≡ loan self.old };

    ghost lawful: { (d : Self) → Lawful (meaning d) };
}
