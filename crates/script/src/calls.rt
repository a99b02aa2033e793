// Calls, from the words of their lines.
ghost use Rattle.std.specs.Prelude.{◌≡◌};
ghost use Rattle.std.specs.Result.{result_ok};
ghost use Rattle.script.specs.Readings.{parity, command_of, store_of, call_of};
ghost use Rattle.script.specs.Words.{words};

use crate::hex::{Address, Byte, Word};
use crate::reason::Reason;
use crate::take::{ended, take};
use crate::verb::CallVerb;
use crate::words::next_word;
use card::call::Call;

// whether the parity is good
fn read_parity(text: &str) -> Result<bool, Reason>
    ensures { result_ok result ≡ parity (words text.now) }
{
    match next_word(text) {
        None => Ok(true),
        Some(("bad", rest)) => ended(false, rest),
        Some(_) => Err(Reason::WordTooMany),
    }
}

fn read_command(text: &str) -> Result<Call, Reason>
    ensures { result_ok result ≡ command_of (words text.now) }
{
    let (first, rest) = take::<Word>(text)?;
    let (second, rest) = take::<Word>(rest)?;
    Ok(Call::Command {
        first,
        second,
        parity: read_parity(rest)?,
    })
}

fn read_store(text: &str) -> Result<Call, Reason>
    ensures { result_ok result ≡ store_of (words text.now) }
{
    let (address, rest) = take::<Address>(text)?;
    let (key, rest) = take::<Byte>(rest)?;
    let (word, rest) = take::<Word>(rest)?;
    ended(Call::Store { address, key, word }, rest)
}

// The call that the words behind its verb say.
pub(crate) fn read_call(verb: CallVerb, text: &str) -> Result<Call, Reason>
    ensures { result_ok result ≡ call_of verb (words text.now) }
{
    match verb {
        CallVerb::Command => read_command(text),
        CallVerb::Step => ended(Call::Step, text),
        CallVerb::Service => ended(Call::Service, text),
        CallVerb::Ready => ended(Call::Readiness { ready: true }, text),
        CallVerb::Unready => ended(Call::Readiness { ready: false }, text),
        CallVerb::Halt => ended(Call::Halt, text),
        CallVerb::Store => read_store(text),
    }
}
