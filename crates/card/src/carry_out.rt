// A call is carried out, whichever of the six it is.
ghost use Rattle.card.specs.Calls.{turn};
ghost use Rattle.card.specs.Carrying.{Carries};
ghost use Rattle.card.specs.Rules.{call};

use crate::call::Call;
use crate::calls::processor_store;
use crate::registers::Card;
use crate::surroundings::Surroundings;
use answers::answer::Answer;
use drive::drive::Drive;
use storage::storage::Storage;

impl Card {
    // Carries out one call.
    pub fn carry_out<D: Drive, S: Storage>(
        &mut self,
        around: &mut Surroundings<D, S>,
        asked: Call,
    ) -> Answer
        ensures { Carries D.meaning S.meaning D.loan S.loan (call self.old asked) around.old (turn self.new result) around.new }
    {
        match asked {
            Call::Command {
                first,
                second,
                parity,
            } => self.command(around.device, &around.drive, first, second, parity),
            Call::Halt => self.halt(),
            Call::Store { address, key, word } => processor_store(
                &mut around.storage,
                address,
                key,
                word,
            ),
            Call::Readiness { ready } => self.readiness(around.device, ready),
            Call::Service => self.service(),
            Call::Step => self.step(around),
        }
    }
}
