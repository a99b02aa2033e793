// A drive that is lent is a drive: what holds of it holds of the loan.
ghost use Rattle.std.specs.Prelude.{Some};

use crate::drive::Drive;
use crate::geometry::{SECTOR_BYTES, Track};
use crate::sector::{Condition, IdField};
use basics::refusal::Refusal;

impl<D: Drive> Drive for &mut D {
    ghost meaning = { λ d. D.meaning d.now };

    ghost loan = { λ d. Some d.ghost_name };

    ghost lawful = { λ d. D.lawful d.now };

    fn heads(&self) -> u8 {
        (**self).heads()
    }

    fn id(&self, track: Track, place: u8) -> IdField {
        (**self).id(track, place)
    }

    fn data_condition(&self, track: Track, place: u8) -> Condition {
        (**self).data_condition(track, place)
    }

    fn read(&self, track: Track, place: u8) -> Result<&[u8], Refusal> {
        (**self).read(track, place)
    }

    fn write(
        &mut self,
        track: Track,
        place: u8,
        bytes: &[u8; SECTOR_BYTES],
    ) -> Result<(), Refusal> {
        (**self).write(track, place, bytes)
    }
}
