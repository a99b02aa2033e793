// A track that was not made fresh.
ghost use Rattle.std.specs.Prelude.{◌≡◌};
ghost use Rattle.machine.specs.declared.not_fresh.NotFresh.TheVariants.{Refused};

use crate::machine::Machine;
use basics::handed_back::HandedBack;

// Why a track was not made fresh, with the machine as it was.
#[derive(Drop)]
pub enum NotFresh {
    // a chained pack has no fresh tracks
    NotPlain(Machine),
    Refused(HandedBack<Machine>),
}

impl From<HandedBack<Machine>> for NotFresh {
    ghost from_gives = { λ back why. why ≡ Refused back };

    fn from(back: HandedBack<Machine>) -> NotFresh {
        NotFresh::Refused(back)
    }
}
