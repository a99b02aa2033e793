// The set-up call that makes a track of a plain pack fresh. The marks stay, and a new run begins.
ghost use Rattle.std.specs.Prelude.{◌≡◌, true, false, MatchResult};
ghost use Rattle.basics.specs.Table.{held};
ghost use Rattle.drive.specs.Disk.{on_drive};
ghost use Rattle.machine.specs.Freshness.{MadeFresh};
ghost use Rattle.machine.specs.Makes.{any_disk, is_plain};
ghost use Rattle.machine.specs.Refusals.{FreshRefused};
ghost use Rattle.machine.specs.SetUp.{WithPack};

use crate::machine::Machine;
use crate::not_fresh::NotFresh;
use basics::refusal::Refusal;
use drive::defect_layer::DefectLayer;
use drive::drive::Drive;
use drive::geometry::Track;

impl Machine {
    // Makes a track fresh.
    pub fn fresh_track(self, track: Track) -> Result<Machine, NotFresh>
        ensures { MatchResult result (λ m. (is_plain self.run.around.drive.below ≡ true) × (on_drive (any_disk self.run.around.drive.below).heads track 0 ≡ true) × WithPack self m (MadeFresh self.run.around.drive.below track) (held self.run.around.drive.marks)) (FreshRefused self track) }
    {
        if !self.drive().below().is_plain() {
            return Err(NotFresh::NotPlain(self));
        }
        let verdict = if track.has_place(self.drive().heads(), 0) {
            Ok(())
        } else {
            Err(Refusal::NoSuchPlace)
        };
        let machine = self.changed(verdict, |drive, storage| {
            let (mut pack, marks) = drive.apart();
            pack.make_fresh(track);
            (DefectLayer::over(pack, marks), storage)
        })?;
        Ok(machine)
    }
}
