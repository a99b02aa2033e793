// A machine is begun, carries out calls, and lends what is to be shown.
ghost use Rattle.std.specs.Prelude.{◌≡◌, [], None};
ghost use Rattle.basics.specs.Table.{held};
ghost use Rattle.card.specs.Calls.{turn};
ghost use Rattle.card.specs.Carrying.{Carries};
ghost use Rattle.card.specs.Rules.{call};
ghost use Rattle.runs.specs.SoFar.{GoesOn, HasLaw};
ghost use Rattle.machine.specs.Makes.{layered_disk, layered_memory};
ghost use Rattle.machine.specs.SetUp.{Begun, world_of};

use crate::any_pack::AnyPack;
use crate::any_storage::AnyStorage;
use crate::machine::Machine;
use answers::answer::Answer;
use card::call::Call;
use card::registers::Card;
use drive::defect_layer::DefectLayer;
use runs::so_far::RunSoFar;
use storage::parity::Parity;

impl Machine {
    // A machine over a pack and a storage with nothing marked.
    pub fn new(device: u8, pack: AnyPack, storage: AnyStorage) -> Machine
        ensures begun { Begun device result }
        ensures pack { (result.run.around.drive.below ≡ pack) × (held result.run.around.drive.marks ≡ []) }
        ensures storage { (result.run.around.storage.below ≡ storage) × (held result.run.around.storage.marks ≡ []) }
    {
        Machine::begin(device, DefectLayer::new(pack), Parity::new(storage))
    }

    // a new run over a drive and a storage with their marks
    pub(crate) fn begin(
        device: u8,
        drive: DefectLayer<AnyPack>,
        storage: Parity<AnyStorage>,
    ) -> Machine
        ensures begun { Begun device result }
        ensures drive { result.run.around.drive ≡ drive }
        ensures storage { result.run.around.storage ≡ storage }
    {
        Machine {
            run: RunSoFar::start(device, drive, storage),
        }
    }

    // Ends the run and gives the drive and the storage with their marks.
    pub(crate) fn end(self) -> (DefectLayer<AnyPack>, Parity<AnyStorage>)
        ensures { result ≡ (self.run.around.drive, self.run.around.storage) }
    {
        let Machine { run } = self;
        run.stop()
    }

    // The device address is another, and a new run begins.
    pub fn set_device(self, device: u8) -> Machine
        ensures begun { Begun device result }
        ensures drive { result.run.around.drive ≡ self.run.around.drive }
        ensures storage { result.run.around.storage ≡ self.run.around.storage }
    {
        let (drive, storage) = self.end();
        Machine::begin(device, drive, storage)
    }

    // Carries out one call of the run.
    pub fn carry_out(&mut self, asked: Call) -> Answer
        ensures carries { Carries layered_disk layered_memory (λ _. None) (λ _. None) (call self.old.run.card asked) self.old.run.around (turn self.new.run.card result) self.new.run.around }
        ensures goes { GoesOn self.old.run.card (world_of self.old) asked result self.new.run.card (world_of self.new) }
    {
        self.run.carry_out(asked)
    }

    // The card; the law holds of the calls so far, from the run's start.
    pub fn law(&self) -> &Card
        ensures card { result.now ≡ self.now.run.card }
        ensures law { ∥ HasLaw self.now.run.card (world_of self.now) ∥₁ }
    {
        self.run.law()
    }

    pub fn card(&self) -> &Card
        ensures { result.now ≡ self.now.run.card }
    {
        self.run.card()
    }

    pub fn device(&self) -> u8
        ensures { result ≡ self.now.run.around.device }
    {
        self.run.device()
    }

    // the pack with its defect layer
    pub fn drive(&self) -> &DefectLayer<AnyPack>
        ensures { result.now ≡ self.now.run.around.drive }
    {
        self.run.drive()
    }

    // the storage with its parity layer
    pub fn storage(&self) -> &Parity<AnyStorage>
        ensures { result.now ≡ self.now.run.around.storage }
    {
        self.run.storage()
    }
}
