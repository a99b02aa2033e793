// Calls and answers printed as lines, without their ends.
ghost use Rattle.std.specs.Prelude.{◌≡◌, Some};
ghost use Rattle.basics.specs.Numbers.{refusal_number, refusal_word};
ghost use Rattle.script.specs.Laws.{ReadBack, ScriptReadBack};
ghost use Rattle.script.specs.Printings.{sayable, call_line, detail, ended_text, refused_text, answer_text, answer_line};

use crate::hex::{Address, Byte, Word};
use crate::verb::CallVerb;
use answers::answer::{Answer, Exception};
use basics::refusal::Refusal;
use card::call::Call;
use std::fmt;

// Whether a line can say a call. Printed as its line, such a call is read back as it is, alone or in a list.
pub fn can_say(call: Call) -> bool
    ensures answer { result ≡ sayable call }
    ensures read_back { ReadBack }
    ensures script_read_back { ScriptReadBack }
{
    match call {
        Call::Store { address, .. } => address < 0x10_0000,
        _ => true,
    }
}

// Written as the call's line.
#[derive(Clone, Copy)]
pub struct CallLine(pub Call);

impl fmt::Display for CallLine {
    ghost output = { λ x. Some (call_line x.0) };

    fn fmt<W: fmt::Write>(&self, f: &mut fmt::Formatter<W>) -> fmt::Result {
        let verb = CallVerb::from(self.0).text();
        match self.0 {
            Call::Command {
                first,
                second,
                parity: true,
            } => write!(f, "{verb} {} {}", Word(first), Word(second)),
            Call::Command {
                first,
                second,
                parity: false,
            } => write!(f, "{verb} {} {} bad", Word(first), Word(second)),
            Call::Store { address, key, word } => {
                write!(
                    f,
                    "{verb} {} {} {}",
                    Address(address),
                    Byte(key),
                    Word(word)
                )
            }
            Call::Readiness { .. } | Call::Halt | Call::Service | Call::Step => f.write_str(verb),
        }
    }
}

// Written as what an exception tells last: a word, a sector or nothing.
#[derive(Clone, Copy)]
struct Detail(Exception);

impl fmt::Display for Detail {
    ghost output = { λ x. Some (detail x.0) };

    fn fmt<W: fmt::Write>(&self, f: &mut fmt::Formatter<W>) -> fmt::Result {
        match self.0 {
            Exception::Storage { address, .. } => write!(f, " word {}", Address(address)),
            Exception::NoRecordFound { sector }
            | Exception::FileDataCheck { sector }
            | Exception::EndOfTrack { sector } => write!(f, " sector {sector}"),
            Exception::SpecificationCheck | Exception::SeekCheck | Exception::NotReady => Ok(()),
        }
    }
}

// Written as the exception that ended a step, with the address of its control block.
#[derive(Clone, Copy)]
struct Ended {
    exception: Exception,
    block: u16,
}

impl fmt::Display for Ended {
    ghost output = { λ x. Some (ended_text x.exception x.block) };

    fn fmt<W: fmt::Write>(&self, f: &mut fmt::Formatter<W>) -> fmt::Result {
        let exception = self.exception;
        let (number, layer) = (exception.number(), exception.layer());
        write!(
            f,
            "{number} {exception} layer {layer} dcb {}{}",
            Word(self.block),
            Detail(exception)
        )
    }
}

// Written as an answer, without the verb in front.
#[derive(Clone, Copy)]
struct AnswerText(Answer);

impl fmt::Display for AnswerText {
    ghost output = { λ x. Some (answer_text x.0) };

    fn fmt<W: fmt::Write>(&self, f: &mut fmt::Formatter<W>) -> fmt::Result {
        match self.0 {
            Answer::Accepted { word } => write!(f, "code 7 word {}", Word(word)),
            Answer::CommandRefused { refusal } => {
                let (number, code) = (refusal.number(), refusal.code());
                write!(f, "refused {number} {refusal} code {code}")
            }
            Answer::Done => f.write_str("ok"),
            Answer::StoreRefused { fault } => write!(f, "refused {} {fault}", fault.number()),
            Answer::Interrupt { waiting } => {
                write!(f, "code {} id {}", waiting.code, Word(waiting.id_word))
            }
            Answer::Stepped => f.write_str("0"),
            Answer::Ended { exception, block } => write!(f, "{}", Ended { exception, block }),
            Answer::NothingWaits | Answer::Idle => {
                let (number, word) = (self.0.number().unwrap(), self.0.word().unwrap());
                write!(f, "refused {number} {word}")
            }
        }
    }
}

// Written as the answer of a call.
#[derive(Clone, Copy)]
pub struct AnswerLine {
    pub call: Call,
    pub answer: Answer,
}

impl fmt::Display for AnswerLine {
    ghost output = { λ x. Some (answer_line x.call x.answer) };

    fn fmt<W: fmt::Write>(&self, f: &mut fmt::Formatter<W>) -> fmt::Result {
        let verb = CallVerb::from(self.call).text();
        let answer = AnswerText(self.answer);
        write!(f, "{verb}: {answer}")
    }
}

pub fn answer_line(call: Call, answer: Answer) -> AnswerLine
    ensures call { result.call ≡ call }
    ensures answer { result.answer ≡ answer }
{
    AnswerLine { call, answer }
}

// Written as the answer of a set-up line that is refused.
#[derive(Clone, Copy)]
pub struct RefusedLine(pub Refusal);

impl fmt::Display for RefusedLine {
    ghost output = { λ x. Some (refused_text (refusal_number x.0) (refusal_word x.0)) };

    fn fmt<W: fmt::Write>(&self, f: &mut fmt::Formatter<W>) -> fmt::Result {
        write!(f, "refused {} {}", self.0.number(), self.0)
    }
}
