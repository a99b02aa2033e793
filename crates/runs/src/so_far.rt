// A run under way: card, drive and storage are what the rules made of the calls so far, and can be looked at in between.
ghost use Rattle.std.specs.Prelude.{◌≡◌};
ghost use Rattle.card.specs.Calls.{turn, new_card};
ghost use Rattle.card.specs.Carrying.{world_around, Carries};
ghost use Rattle.card.specs.Rules.{call};
ghost use Rattle.runs.specs.SoFar.{GoesOn, LawSoFar};

use answers::answer::Answer;
use card::call::Call;
use card::registers::Card;
use card::surroundings::Surroundings;
use drive::drive::Drive;
use storage::storage::Storage;

#[derive(Drop)]
pub struct RunSoFar<D, S> {
    card: Card,
    around: Surroundings<D, S>,
}

impl<D: Drive, S: Storage> RunSoFar<D, S> {
    // A new card over a drive and a storage.
    pub fn start(device: u8, drive: D, storage: S) -> Self
        ensures { result ≡ record { card = new_card; around = record { device = device; drive = drive; storage = storage } } }
    {
        RunSoFar {
            card: Card::new(),
            around: Surroundings {
                device,
                drive,
                storage,
            },
        }
    }

    // Carries out one call more.
    pub fn carry_out(&mut self, asked: Call) -> Answer
        ensures carries { Carries D.meaning S.meaning D.loan S.loan (call self.old.card asked) self.old.around (turn self.new.card result) self.new.around }
        ensures goes { GoesOn self.old.card (world_around D.meaning S.meaning self.old.around) asked result self.new.card (world_around D.meaning S.meaning self.new.around) }
    {
        // named, so that an edit can change the device around it and put it back
        let answer = self.card.carry_out(&mut self.around, asked);
        answer
    }

    // That the law holds of the calls so far; the answer is the card.
    pub fn law(&self) -> &Card
        ensures card { result.now ≡ self.now.card }
        ensures law { LawSoFar self.now.card (world_around D.meaning S.meaning self.now.around) }
    {
        &self.card
    }

    pub fn card(&self) -> &Card
        ensures { result.now ≡ self.now.card }
    {
        &self.card
    }

    pub fn device(&self) -> u8
        ensures { result ≡ self.now.around.device }
    {
        self.around.device
    }

    pub fn drive(&self) -> &D
        ensures { result.now ≡ self.now.around.drive }
    {
        &self.around.drive
    }

    pub fn storage(&self) -> &S
        ensures { result.now ≡ self.now.around.storage }
    {
        &self.around.storage
    }

    // Ends the run and gives drive and storage back.
    pub fn stop(self) -> (D, S)
        ensures { result ≡ (self.around.drive, self.around.storage) }
    {
        let RunSoFar { card: _, around } = self;
        let Surroundings {
            device: _,
            drive,
            storage,
        } = around;
        (drive, storage)
    }
}
