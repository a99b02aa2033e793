// The defect layer: a drive below, with up to 32 marks that each spoil the ID or the data of a place.
ghost use Rattle.std.specs.Prelude.{◌≡◌, true, false, is_err};
ghost use Rattle.basics.specs.Marks.{without};
ghost use Rattle.basics.specs.Table.{held};
ghost use Rattle.drive.specs.Disk.{on_drive, accepts, written};
ghost use Rattle.drive.specs.Defects.{same_defect, defect_of, spoils, spoiled_if, defect_disk};
ghost use Rattle.drive.specs.declared.defect.Field.TheVariants.{Data};
ghost use Rattle.std.proofs.Common.{rules};

use crate::defect::{Defect, Field};
use crate::drive::Drive;
use crate::geometry::{SECTOR_BYTES, Track};
use crate::sector::{Condition, IdField};
use basics::layer::{ComesOff, Extent, Layer};
use basics::refusal::Refusal;

pub const DEFECT_MARKS: usize = 32;

// The places of a drive, each with its two fields. None is made but here.
pub struct Places(());

pub type DefectLayer<D> = Layer<D, Defect, Places, DEFECT_MARKS>;

// A track is made fresh without the layer, which is then put over the pack again.
impl ComesOff for Places {}

impl<D: Drive> Extent<D, Defect> for Places {
    ghost reaches = { λ d x. on_drive (D.Drive.meaning d).heads x.track x.place };

    fn reaches(drive: &D, defect: &Defect) -> bool {
        defect.track.has_place(drive.heads(), defect.place)
    }
}

// whether a mark spoils a field of a place
fn spoils<D: Drive>(layer: &DefectLayer<D>, field: Field, track: Track, place: u8) -> bool
    ensures { result ≡ spoils (held layer.now.marks) field track place }
{
    layer.is_marked(Defect {
        field,
        track,
        place,
    })
}

// a condition under a mark, or under none
fn spoiled_if(marked: bool, condition: Condition) -> Condition
    ensures { result ≡ spoiled_if marked condition }
{
    if marked {
        Condition::Spoiled
    } else {
        condition
    }
}

impl<D: Drive> Drive for DefectLayer<D> {
    ghost meaning = { λ d. defect_disk (held d.marks) (D.Drive.meaning d.below) };

    ghost loan = { λ d. D.Drive.loan d.below };

    ghost lawful = { λ d. Prim.search (rules, D.Drive.lawful d.below) };

    fn heads(&self) -> u8 {
        self.below().heads()
    }

    fn id(&self, track: Track, place: u8) -> IdField {
        let field = self.below().id(track, place);
        IdField {
            condition: spoiled_if(spoils(self, Field::Id, track, place), field.condition),
            ..field
        }
    }

    fn data_condition(&self, track: Track, place: u8) -> Condition {
        let below = self.below().data_condition(track, place);
        spoiled_if(spoils(self, Field::Data, track, place), below)
    }

    fn read(&self, track: Track, place: u8) -> Result<&[u8], Refusal> {
        if spoils(self, Field::Id, track, place) {
            return Err(Refusal::NoSuchPlace);
        }
        self.below().read(track, place)
    }

    // Besides what every drive owes: an accepted write goes to the drive below, and lifts the data mark of its place alone.
    fn write(&mut self, track: Track, place: u8, bytes: &[u8; SECTOR_BYTES]) -> Result<(), Refusal>
        ensures answer { result ≡ accepts (defect_disk (held self.old.marks) (D.Drive.meaning self.old.below)) track place }
        ensures after { defect_disk (held self.new.marks) (D.Drive.meaning self.new.below) ≡ written (defect_disk (held self.old.marks) (D.Drive.meaning self.old.below)) track place bytes.now }
        ensures refused { is_err result ≡ true → self.new ≡ self.old }
        ensures loan { D.Drive.loan self.new.below ≡ D.Drive.loan self.old.below }
        ensures below { is_err result ≡ false → D.Drive.meaning self.new.below ≡ written (D.Drive.meaning self.old.below) track place bytes.now }
        ensures marks { is_err result ≡ false → held self.new.marks ≡ without same_defect (defect_of Data track place) (held self.old.marks) }
    {
        if spoils(self, Field::Id, track, place) {
            return Err(Refusal::NoSuchPlace);
        }
        self.below_mut(&Places(())).write(track, place, bytes)?;
        self.marks_mut(&Places(())).lift(&Defect {
            field: Field::Data,
            track,
            place,
        });
        Ok(())
    }
}
