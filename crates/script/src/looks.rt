// Lines that only look, from their words.
ghost use Rattle.std.specs.Prelude.{◌≡◌};
ghost use Rattle.std.specs.Result.{result_ok};
ghost use Rattle.script.specs.Figures.{address, decimal};
ghost use Rattle.script.specs.Readings.{count_of, look_of};
ghost use Rattle.script.specs.Takes.{first};
ghost use Rattle.script.specs.Words.{words};

use crate::hex::Address;
use crate::kinds::LookKind;
use crate::line::Look;
use crate::numbers::Decimal;
use crate::reason::Reason;
use crate::take::{ended, take};

// an address, and how many words
fn read_words(text: &str) -> Result<Look, Reason>
    ensures { result_ok result ≡ first address (λ a. first decimal (count_of a)) (words text.now) }
{
    let (address, rest) = take::<Address>(text)?;
    let (count, rest) = take::<Decimal>(rest)?;
    if count <= 65536 {
        ended(Look::Words { address, count }, rest)
    } else {
        Err(Reason::TooManyWords)
    }
}

// What the words behind `show` say.
pub(crate) fn read_look(text: &str) -> Result<Look, Reason>
    ensures { result_ok result ≡ look_of (words text.now) }
{
    let (kind, rest) = take::<LookKind>(text)?;
    match kind {
        LookKind::Card => ended(Look::Card, rest),
        LookKind::Status => ended(Look::Status, rest),
        LookKind::Words => read_words(rest),
        LookKind::Track => {
            let (cylinder, rest) = take::<Decimal>(rest)?;
            let (head, rest) = take::<Decimal>(rest)?;
            ended(Look::Track { cylinder, head }, rest)
        }
        LookKind::Places => ended(Look::Places, rest),
    }
}
