// Set-up lines, from their words.
ghost use Rattle.std.specs.Prelude.{◌≡◌};
ghost use Rattle.std.specs.Option.{option_map};
ghost use Rattle.std.specs.Result.{result_ok};
ghost use Rattle.script.specs.Kinds.{storage_kind, pack_kind};
ghost use Rattle.script.specs.Readings.{placeless, name_of, keys_of, storage_by, pack_by, defect_of, set_up_of};
ghost use Rattle.script.specs.Takes.{first};
ghost use Rattle.script.specs.Words.{words};

use crate::hex::{Address, Byte};
use crate::kinds::{PackKind, StorageKind};
use crate::line::{DefectAt, Keys, SetUp};
use crate::numbers::Decimal;
use crate::reason::Reason;
use crate::take::{FromWord, ended, take, take_name};
use crate::verb::SetUpVerb;
use crate::words::next_word;
use drive::defect::Field;

// The only word of a text.
pub(crate) fn read_name(text: &str) -> Result<&str, Reason>
    ensures { option_map (λ x. x.now) (result_ok result) ≡ name_of (words text.now) }
{
    let (name, rest) = take_name(text)?;
    ended(name, rest)
}

// each word a key
fn read_keys(text: &str) -> Result<Keys, Reason>
    ensures { result_ok result ≡ keys_of (words text.now) }
{
    let mut count = 0;
    let mut keys = [0; 32];
    let mut rest = text;
    // kept: `next_word` alone says what a word is; a chain over the text would say it a second time
    while let Some((word, more)) = next_word(rest) {
        let key = Byte::from_word(word)?;
        if count < keys.len() {
            keys[count] = key;
        }
        count += 1;
        rest = more;
    }
    Ok(Keys { count, keys })
}

fn read_storage(text: &str) -> Result<SetUp<'_>, Reason>
    ensures { option_map placeless (result_ok result) ≡ first storage_kind storage_by (words text.now) }
{
    let (kind, rest) = take::<StorageKind>(text)?;
    match kind {
        StorageKind::Plain => {
            let (size, rest) = take::<Decimal>(rest)?;
            ended(SetUp::StoragePlain { size }, rest)
        }
        StorageKind::Keyed => Ok(SetUp::StorageKeyed {
            keys: read_keys(rest)?,
        }),
        StorageKind::File => Ok(SetUp::StorageFile {
            name: read_name(rest)?,
        }),
    }
}

fn read_pack(text: &str) -> Result<SetUp<'_>, Reason>
    ensures { option_map placeless (result_ok result) ≡ first pack_kind pack_by (words text.now) }
{
    let (kind, rest) = take::<PackKind>(text)?;
    match kind {
        PackKind::Plain => Ok(SetUp::PackPlain {
            name: read_name(rest)?,
        }),
        PackKind::Chained => Ok(SetUp::PackChained {
            name: read_name(rest)?,
        }),
        PackKind::Fresh => {
            let (heads, rest) = take::<Decimal>(rest)?;
            ended(SetUp::PackFresh { heads }, rest)
        }
    }
}

// the field of a place
fn read_defect(text: &str) -> Result<DefectAt, Reason>
    ensures { result_ok result ≡ defect_of (words text.now) }
{
    let (field, rest) = take::<Field>(text)?;
    let (cylinder, rest) = take::<Decimal>(rest)?;
    let (head, rest) = take::<Decimal>(rest)?;
    let (place, rest) = take::<Decimal>(rest)?;
    let defect = DefectAt {
        field,
        cylinder,
        head,
        place,
    };
    ended(defect, rest)
}

// The set-up line that the words behind its verb say.
pub(crate) fn read_set_up(verb: SetUpVerb, text: &str) -> Result<SetUp<'_>, Reason>
    ensures { option_map placeless (result_ok result) ≡ set_up_of verb (words text.now) }
{
    match verb {
        SetUpVerb::Storage => read_storage(text),
        SetUpVerb::Pack => read_pack(text),
        SetUpVerb::Device => {
            let (device, rest) = take::<Byte>(text)?;
            ended(SetUp::Device { device }, rest)
        }
        SetUpVerb::Parity => {
            let (address, rest) = take::<Address>(text)?;
            ended(SetUp::Parity { address }, rest)
        }
        SetUpVerb::Unparity => {
            let (address, rest) = take::<Address>(text)?;
            ended(SetUp::Unparity { address }, rest)
        }
        SetUpVerb::Defect => Ok(SetUp::Defect(read_defect(text)?)),
        SetUpVerb::Undefect => Ok(SetUp::Undefect(read_defect(text)?)),
        SetUpVerb::Fresh => {
            let (cylinder, rest) = take::<Decimal>(text)?;
            let (head, rest) = take::<Decimal>(rest)?;
            ended(SetUp::Fresh { cylinder, head }, rest)
        }
    }
}
