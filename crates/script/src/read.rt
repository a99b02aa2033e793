// A line of a script, read.
ghost use Rattle.std.specs.Prelude.{◌≡◌};
ghost use Rattle.std.specs.Option.{option_map};
ghost use Rattle.std.specs.Result.{result_ok};
ghost use Rattle.script.specs.Readings.{placeless_line, line_by, line_of};
ghost use Rattle.script.specs.Words.{words};

use crate::calls::read_call;
use crate::line::Line;
use crate::looks::read_look;
use crate::reason::Reason;
use crate::set_ups::{read_name, read_set_up};
use crate::take::FromWord;
use crate::verb::Verb;
use crate::words::next_word;

// the words behind a verb
fn read_after(verb: Verb, text: &str) -> Result<Line<'_>, Reason>
    ensures { option_map placeless_line (result_ok result) ≡ line_by verb (words text.now) }
{
    match verb {
        Verb::Calls(verb) => Ok(Line::Call(read_call(verb, text)?)),
        Verb::SetsUp(verb) => Ok(Line::SetUp(read_set_up(verb, text)?)),
        Verb::Saves => Ok(Line::Save {
            name: read_name(text)?,
        }),
        Verb::Shows => Ok(Line::Look(read_look(text)?)),
    }
}

// What a line says, without its end. A line whose first word begins with `#` is a comment.
pub fn read_line(text: &str) -> Result<Line<'_>, Reason>
    ensures { option_map placeless_line (result_ok result) ≡ line_of (words text.now) }
{
    let Some((word, rest)) = next_word(text) else {
        return Ok(Line::Blank);
    };
    if word.starts_with('#') {
        return Ok(Line::Blank);
    }
    read_after(Verb::from_word(word)?, rest)
}
