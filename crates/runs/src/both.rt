// The same calls over two drives and two storages, whatever their makes.
ghost use Rattle.std.specs.Prelude.{◌≡◌};
ghost use Rattle.card.specs.Calls.{new_card};
ghost use Rattle.card.specs.Carrying.{world_around, Carries};
ghost use Rattle.runs.specs.Laws.{BothAlike};
ghost use Rattle.runs.specs.Moments.{looked_in};
ghost use Rattle.runs.specs.Places.{Agree};
ghost use Rattle.runs.specs.Runs.{run, calls_of, answers_of};

use crate::entry::Entry;
use crate::run::run;
use card::registers::Card;
use card::surroundings::Surroundings;
use drive::drive::Drive;
use storage::storage::Storage;

// Runs the entries in one place and the others in another, and gives both cards. Where the calls are the same, and the
// other start agrees on all that the first run looks at, the two come out alike.
pub fn run_both<D: Drive, S: Storage, E: Drive, T: Storage>(
    around: &mut Surroundings<D, S>,
    entries: &mut [Entry],
    other: &mut Surroundings<E, T>,
    others: &mut [Entry],
) -> (Card, Card)
    ensures first { Carries D.meaning S.meaning D.loan S.loan (run new_card (calls_of entries.old)) around.old (record { card = result.0; answers = answers_of entries.new }) around.new }
    ensures second { Carries E.meaning T.meaning E.loan T.loan (run new_card (calls_of others.old)) other.old (record { card = result.1; answers = answers_of others.new }) other.new }
    ensures alike { calls_of others.old ≡ calls_of entries.old → Agree (looked_in (world_around D.meaning S.meaning around.old) (calls_of entries.old)) (world_around D.meaning S.meaning around.old) (world_around E.meaning T.meaning other.old) → BothAlike (world_around D.meaning S.meaning around.old) (world_around D.meaning S.meaning around.new) (world_around E.meaning T.meaning other.old) (world_around E.meaning T.meaning other.new) (calls_of entries.old) (answers_of entries.new) (answers_of others.new) }
{
    let card = run(around, entries);
    let other_card = run(other, others);
    (card, other_card)
}
