// Set-up calls that mark and lift in the two layers. What lies below stays, and a new run begins.
ghost use Rattle.std.specs.Prelude.{◌≡◌, nat_eq};
ghost use Rattle.basics.specs.Marks.{entered, without};
ghost use Rattle.basics.specs.Table.{held};
ghost use Rattle.drive.specs.Defects.{same_defect};
ghost use Rattle.machine.specs.SetUp.{Begun, Tries, WithPack, WithStorage, marking_word, lifting_word, marking_place, lifting_place};

use crate::any_pack::AnyPack;
use crate::any_storage::AnyStorage;
use crate::machine::Machine;
use basics::handed_back::HandedBack;
use basics::refusal::Refusal;
use drive::defect::Defect;
use drive::defect_layer::DefectLayer;
use storage::parity::Parity;

impl Machine {
    // A new run after a change of the drive's or the storage's marks, unless a verdict refuses it.
    pub(crate) fn changed<F>(
        self,
        verdict: Result<(), Refusal>,
        change: F,
    ) -> Result<Machine, HandedBack<Machine>>
    where
        F: FnOnce(
            DefectLayer<AnyPack>,
            Parity<AnyStorage>,
        ) -> (DefectLayer<AnyPack>, Parity<AnyStorage>),
        requires { F.IsAlwaysCallable change }
        ensures { Tries self verdict (λ m. Begun self.run.around.device m × F.post change self.run.around.drive self.run.around.storage (m.run.around.drive, m.run.around.storage)) result }
    {
        if let Err(refusal) = verdict {
            return Err(HandedBack {
                refusal,
                given: self,
            });
        }
        let device = self.device();
        let (drive, storage) = self.end();
        let (drive, storage) = change(drive, storage);
        Ok(Machine::begin(device, drive, storage))
    }

    // Marks a word as having bad parity.
    pub fn mark_parity(self, address: u32) -> Result<Machine, HandedBack<Machine>>
        ensures { Tries self (marking_word self address) (λ m. WithStorage self m (λ s. s ≡ self.run.around.storage.below) (entered nat_eq 16 address (held self.run.around.storage.marks))) result }
    {
        let verdict = self.storage().would_mark(address);
        self.changed(verdict, |drive, mut storage| {
            let _ = storage.mark(address);
            (drive, storage)
        })
    }

    // Lifts the mark of a word.
    pub fn lift_parity(self, address: u32) -> Result<Machine, HandedBack<Machine>>
        ensures { Tries self (lifting_word self address) (λ m. WithStorage self m (λ s. s ≡ self.run.around.storage.below) (without nat_eq address (held self.run.around.storage.marks))) result }
    {
        let verdict = self.storage().would_lift(address);
        self.changed(verdict, |drive, mut storage| {
            let _ = storage.lift(address);
            (drive, storage)
        })
    }

    // Spoils a field of a place.
    pub fn mark_defect(self, defect: Defect) -> Result<Machine, HandedBack<Machine>>
        ensures { Tries self (marking_place self defect) (λ m. WithPack self m (λ p. p ≡ self.run.around.drive.below) (entered same_defect 32 defect (held self.run.around.drive.marks))) result }
    {
        let verdict = self.drive().would_mark(defect);
        self.changed(verdict, |mut drive, storage| {
            let _ = drive.mark(defect);
            (drive, storage)
        })
    }

    // Lifts the mark of a field of a place.
    pub fn lift_defect(self, defect: Defect) -> Result<Machine, HandedBack<Machine>>
        ensures { Tries self (lifting_place self defect) (λ m. WithPack self m (λ p. p ≡ self.run.around.drive.below) (without same_defect defect (held self.run.around.drive.marks))) result }
    {
        let verdict = self.drive().would_lift(defect);
        self.changed(verdict, |mut drive, storage| {
            let _ = drive.lift(defect);
            (drive, storage)
        })
    }
}
