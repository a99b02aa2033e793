// A run: a list of calls over one card started new, one drive and one storage.
ghost use Rattle.std.specs.Prelude.{◌≡◌, true};
ghost use Rattle.card.specs.Acts.{spares_storage, spares_drive, ends, sent, ended, world};
ghost use Rattle.card.specs.Calls.{new_card};
ghost use Rattle.card.specs.Carrying.{world_around, Carries};
ghost use Rattle.runs.specs.Laws.{RunLaw, RunAudit};
ghost use Rattle.runs.specs.Runs.{run, calls_of, answers_of};

use crate::entry::Entry;
use card::registers::Card;
use card::surroundings::Surroundings;
use drive::drive::Drive;
use storage::storage::Storage;

// Carries out the calls of the entries in order, puts each answer beside its call, and gives the card as it is then.
pub fn run<D: Drive, S: Storage>(around: &mut Surroundings<D, S>, entries: &mut [Entry]) -> Card
    ensures calls { calls_of entries.new ≡ calls_of entries.old }
    ensures carries { Carries D.meaning S.meaning D.loan S.loan (run new_card (calls_of entries.old)) around.old (record { card = result; answers = answers_of entries.new }) around.new }
    ensures law { RunLaw (world_around D.meaning S.meaning around.old) (world_around D.meaning S.meaning around.new) (calls_of entries.old) (answers_of entries.new) }
    ensures audit { RunAudit new_card (world_around D.meaning S.meaning around.old) (calls_of entries.old) }
{
    let mut card = Card::new();
    for entry in entries.iter_mut() {
        entry.answer = card.carry_out(around, entry.call);
    }
    card
}

// The same over a drive and a storage that are only lent.
pub fn run_lent<D: Drive, S: Storage>(
    device: u8,
    drive: &mut D,
    storage: &mut S,
    entries: &mut [Entry],
) -> Card
    ensures calls { calls_of entries.new ≡ calls_of entries.old }
    ensures came { ends (run new_card (calls_of entries.old)) (world device (D.meaning drive.old) (S.meaning storage.old)) ≡ ended (record { card = result; answers = answers_of entries.new }) (world device (D.meaning drive.new) (S.meaning storage.new)) }
    ensures law { RunLaw (world device (D.meaning drive.old) (S.meaning storage.old)) (world device (D.meaning drive.new) (S.meaning storage.new)) (calls_of entries.old) (answers_of entries.new) }
    ensures audit { RunAudit new_card (world device (D.meaning drive.old) (S.meaning storage.old)) (calls_of entries.old) }
    ensures drive { spares_drive (sent (run new_card (calls_of entries.old)) (world device (D.meaning drive.old) (S.meaning storage.old))) ≡ true → drive.new ≡ drive.old }
    ensures storage { spares_storage (sent (run new_card (calls_of entries.old)) (world device (D.meaning drive.old) (S.meaning storage.old))) ≡ true → storage.new ≡ storage.old }
{
    let mut around = Surroundings {
        device,
        drive,
        storage,
    };
    run(&mut around, entries)
}
