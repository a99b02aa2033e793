// Numbers as words say them.
#![tactic(auto, using(crate::proofs::Reading::no_number))]

ghost use Rattle.std.specs.Prelude.{◌≡◌, ◌≤◌};
ghost use Rattle.std.specs.Result.{result_ok};
ghost use Rattle.script.specs.Figures.{number, word, byte, address, decimal};

use crate::hex::{Address, Byte, Word};
use crate::reason::Reason;
use crate::take::FromWord;

// A number in decimal digits.
pub(crate) struct Decimal;

// a number of digits alone, in either case
fn number(word: &str, radix: u32) -> Result<u32, Reason>
    requires low { 2 ≤ radix }
    requires high { radix ≤ 16 }
    ensures { result_ok result ≡ number radix 0xFFFF_FFFF word.now }
{
    if word.starts_with('+') {
        return Err(Reason::NoNumber);
    }
    u32::from_str_radix(word, radix).map_err(|_| Reason::NoNumber)
}

impl FromWord for Word {
    type Value = u16;

    ghost said = { word };

    fn from_word(word: &str) -> Result<u16, Reason> {
        u16::try_from(number(word, 16)?).map_err(|_| Reason::NoNumber)
    }
}

impl FromWord for Byte {
    type Value = u8;

    ghost said = { byte };

    fn from_word(word: &str) -> Result<u8, Reason> {
        u8::try_from(number(word, 16)?).map_err(|_| Reason::NoNumber)
    }
}

impl FromWord for Address {
    type Value = u32;

    ghost said = { address };

    fn from_word(word: &str) -> Result<u32, Reason> {
        let address = Some(number(word, 16)?);
        address
            .filter(|address| *address <= 0xF_FFFF)
            .ok_or(Reason::NoNumber)
    }
}

impl FromWord for Decimal {
    type Value = u32;

    ghost said = { decimal };

    fn from_word(word: &str) -> Result<u32, Reason> {
        number(word, 10)
    }
}
